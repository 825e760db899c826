ghost use Rattle.std.specs.Prelude.{◌≡◌, ◌<◌, length, map, IfOk};
ghost use Rattle.std.specs.Option.{option_map, option_or};
ghost use Rattle.std.specs.Set.{is_member};
ghost use Rattle.mc_decl_syntax.specs.Plain.{plain_item};
ghost use Rattle.mc_names.specs.Plain.{definition as definition_of, is_definition, plain_name_arity, plain_definition, plain_occurrence, joined};
ghost use Rattle.mc_names.specs.Definitions.{definitions as definitions_of};
ghost use Rattle.mc_defs_uses.specs.Occurrences.{uses as uses_of};
ghost use Rattle.mc_defs_uses.specs.Clauses.{clause_of, mode_of, without_mode};
ghost use Rattle.mc_defs_uses.specs.Twice.{twice_in};
ghost use Rattle.mc_modules.specs.Files.{modes_of, definitions_of as definitions_in, items_in_file};
ghost use Rattle.mc_decl_syntax.specs.Entries.{plain_files};
ghost use Rattle.mc_modules.specs.Visible.{file_at, module_of};
ghost use Rattle.mc_modules.specs.Faults.{twice_given, is_number, not_found, missing, import_fault, invisible, again, double_fault, is_undefined, undefined_fault, undeclared, ambiguous, mode_fault, fault};
ghost use Rattle.mc_modules.specs.code.Steps.{definition_fault};
ghost use Rattle.mc_modules.specs.Kept.{plain_item_in_file};

use crate::item_in_file::ItemInFile;
use crate::linking::Linking;
use crate::messages;
use crate::structure::structure_fault;
use mc_base::{Memory, Row, Text};
use mc_decl_syntax::Decl;
use mc_defs_uses::{DefinitionSet, clause_of, mode_of, twice_in, uses, without_mode};
use mc_names::{Definition, Kind, NameArity, Occurrence};
use mc_source::rule::Rule;
use std::alloc::Global;

// A rule with what is said of it, where one is broken.
type Fault = Option<(Rule, Text)>;

impl<'a> Linking<'a> {
    /// The first rule that an item of a file breaks, behind those that declare or define `before`.
    pub fn fault(
        &self,
        alloc: Global,
        own: u32,
        before: &DefinitionSet<'a>,
        item: &ItemInFile<'a>,
    ) -> Result<Fault, Memory>
        requires own { own < length self.now }
        ensures { IfOk result
            (λ f.
            f
            ≡ fault (plain_files self.now) own
            (items_in_file (file_at (plain_files self.now) own)) before.now
            (plain_item_in_file item.now)) }
    {
        let decl = &item.entry.decl;
        if let Some(fault) = structure_fault(alloc, self.file(own), item)? {
            return Ok(Some(fault));
        }
        if let Some(fault) = self.twice_given(alloc, own, decl)? {
            return Ok(Some(fault));
        }
        if let Some(fault) = self.import_fault(alloc, decl)? {
            return Ok(Some(fault));
        }
        let uses = uses(alloc, decl)?;
        if let Some(fault) = self.invisible(alloc, own, &uses)? {
            return Ok(Some(fault));
        }
        self.definition_fault(alloc, own, before, item, &uses)
    }

    // The first rule that an item breaks of those on what it declares, defines and is of.
    fn definition_fault(
        &self,
        alloc: Global,
        own: u32,
        before: &DefinitionSet<'a>,
        item: &ItemInFile<'a>,
        uses: &[Occurrence<'a>],
    ) -> Result<Fault, Memory>
        requires own { own < length self.now }
        requires uses { map plain_occurrence uses.now ≡ uses_of (plain_item item.now.entry.now.decl) }
        ensures { IfOk result
            (λ f.
            f
            ≡ definition_fault (plain_files self.now) own
            (items_in_file (file_at (plain_files self.now) own)) before.now
            (plain_item_in_file item.now)) }
    {
        let decl = &item.entry.decl;
        if let Some(fault) = double_fault(alloc, before, decl, &item.definitions)? {
            return Ok(Some(fault));
        }
        if let Some(fault) = self.undefined_fault(alloc, own, &item.definitions)? {
            return Ok(Some(fault));
        }
        if let Some(fault) = self.undeclared(alloc, own, subject_of(decl))? {
            return Ok(Some(fault));
        }
        if let Some(fault) = self.ambiguous(alloc, own, uses)? {
            return Ok(Some(fault));
        }
        self.mode_fault(alloc, own, without_mode(alloc, decl))
    }

    // The rule N2: the name of a module means another one.
    fn twice_given(&self, alloc: Global, own: u32, decl: &Decl) -> Result<Fault, Memory>
        ensures { IfOk result
            (λ f. f ≡ twice_given (plain_files self.now) own (plain_item decl.now)) }
    {
        match decl {
            Decl::ModuleStart(name) => {
                if self.is_number(alloc, own, name.as_slice())? {
                    return Ok(None);
                }
                let what = messages::of_module(alloc, name.as_slice(), b" is given twice")?;
                Ok(Some((Rule::N2, what)))
            }
            _ => Ok(None),
        }
    }

    // Whether a name means a module.
    fn is_number(&self, alloc: Global, own: u32, name: &[Text]) -> Result<bool, Memory>
        ensures { IfOk result
            (λ is.
            is ≡ is_number (module_of (plain_files self.now) (joined name.now)) own) }
    {
        match self.number(alloc, name)? {
            Some(number) => Ok(number == own),
            None => Ok(false),
        }
    }

    // The rule N3: a module that is imported or used isn't there.
    fn import_fault(&self, alloc: Global, decl: &Decl) -> Result<Fault, Memory>
        ensures { IfOk result
            (λ f. f ≡ import_fault (plain_files self.now) (plain_item decl.now)) }
    {
        match decl {
            Decl::Imports(names) | Decl::UseOnly(names) => self.missing(alloc, names.as_slice()),
            _ => Ok(None),
        }
    }

    fn missing(&self, alloc: Global, names: &[Row<Text>]) -> Result<Fault, Memory>
        ensures { IfOk result (λ f. f ≡ missing (plain_files self.now) names.now) }
    {
        for name in names {
            if let Some(fault) = self.not_found(alloc, name.as_slice())? {
                return Ok(Some(fault));
            }
        }
        Ok(None)
    }

    fn not_found(&self, alloc: Global, name: &[Text]) -> Result<Fault, Memory>
        ensures { IfOk result
            (λ f.
            f
            ≡ not_found name.now
            (module_of (plain_files self.now) (joined name.now))) }
    {
        match self.number(alloc, name)? {
            Some(_) => Ok(None),
            None => {
                let what = messages::of_module(alloc, name, b" is not found")?;
                Ok(Some((Rule::N3, what)))
            }
        }
    }

    /// The rule N4: nothing visible has a name.
    pub fn invisible(
        &self,
        alloc: Global,
        own: u32,
        uses: &[Occurrence<'a>],
    ) -> Result<Fault, Memory>
        requires own { own < length self.now }
        ensures { IfOk result
            (λ f.
            f ≡ invisible (plain_files self.now) own (map plain_occurrence uses.now)) }
    {
        for used in uses {
            if !self.has_meaning(alloc, own, used)? {
                let what = messages::of_name(alloc, &used.id, b" is not visible")?;
                return Ok(Some((Rule::N4, what)));
            }
        }
        Ok(None)
    }

    // The rule N6: what an item declares has no definition.
    fn undefined_fault(
        &self,
        alloc: Global,
        own: u32,
        definitions: &[Definition<'a>],
    ) -> Result<Fault, Memory>
        requires own { own < length self.now }
        ensures { IfOk result
            (λ f.
            f
            ≡ undefined_fault (items_in_file (file_at (plain_files self.now) own))
            (map plain_definition definitions.now)) }
    {
        match definitions {
            [definition, ..] if self.is_undefined(own, definition) => {
                let what = messages::of_name(alloc, &definition.id, b" has no definition")?;
                Ok(Some((Rule::N6, what)))
            }
            _ => Ok(None),
        }
    }

    #[tactic(auto, using(crate::proofs::Tables::is_member_set))]
    fn is_undefined(&self, own: u32, definition: &Definition<'a>) -> bool
        requires own { own < length self.now }
        ensures { result
            ≡ is_undefined (items_in_file (file_at (plain_files self.now) own))
            (plain_definition definition.now).kind (plain_definition definition.now).id }
    {
        let table = self.table(own);
        let id = definition.id;
        match definition.kind {
            Kind::AbstractType => !table.definitions.contains(Definition {
                kind: Kind::DefinedType,
                id,
            }),
            Kind::Pred | Kind::Func => !table.clauses.contains(*definition),
            _ => false,
        }
    }

    // The rule N7: what a clause or a mode is of isn't declared.
    fn undeclared(
        &self,
        alloc: Global,
        own: u32,
        subject: Option<Definition<'a>>,
    ) -> Result<Fault, Memory>
        requires own { own < length self.now }
        ensures { IfOk result
            (λ f.
            f
            ≡ undeclared (items_in_file (file_at (plain_files self.now) own))
            (option_map plain_definition subject.entry)) }
    {
        match subject {
            Some(definition) => {
                if self.is_declared(own, definition) {
                    return Ok(None);
                }
                let what = messages::of_name(alloc, &definition.id, b" is not declared")?;
                Ok(Some((Rule::N7, what)))
            }
            None => Ok(None),
        }
    }

    #[tactic(auto, using(crate::proofs::Tables::is_member_set))]
    fn is_declared(&self, own: u32, definition: Definition<'a>) -> bool
        requires own { own < length self.now }
        ensures { result
            ≡ is_member is_definition
            (definitions_in (items_in_file (file_at (plain_files self.now) own)))
            (plain_definition definition.entry) }
    {
        self.table(own).definitions.contains(definition)
    }

    // The rule N8: a type, an inst or a mode has two meanings.
    fn ambiguous(&self, alloc: Global, own: u32, uses: &[Occurrence<'a>]) -> Result<Fault, Memory>
        requires own { own < length self.now }
        ensures { IfOk result
            (λ f.
            f ≡ ambiguous (plain_files self.now) own (map plain_occurrence uses.now)) }
    {
        for used in uses {
            if self.is_ambiguous(own, used) {
                let what = messages::of_name(alloc, &used.id, b" has two meanings")?;
                return Ok(Some((Rule::N8, what)));
            }
        }
        Ok(None)
    }

    // The rule M5: a predicate has no mode.
    fn mode_fault(
        &self,
        alloc: Global,
        own: u32,
        pred: Option<NameArity<'a>>,
    ) -> Result<Fault, Memory>
        requires own { own < length self.now }
        ensures { IfOk result
            (λ f.
            f
            ≡ mode_fault (items_in_file (file_at (plain_files self.now) own))
            (option_map plain_name_arity pred.entry)) }
    {
        match pred {
            Some(id) => {
                if self.has_mode(own, id) {
                    return Ok(None);
                }
                let what = messages::of_name(alloc, &id, b" has no mode")?;
                Ok(Some((Rule::M5, what)))
            }
            None => Ok(None),
        }
    }

    #[tactic(auto, using(crate::proofs::Tables::is_member_set))]
    fn has_mode(&self, own: u32, id: NameArity<'a>) -> bool
        requires own { own < length self.now }
        ensures { result
            ≡ is_member is_definition
            (modes_of (items_in_file (file_at (plain_files self.now) own)))
            (definition_of Kind.Pred (plain_name_arity id.entry)) }
    {
        self.table(own).modes.contains(Definition {
            kind: Kind::Pred,
            id,
        })
    }
}

// The rule N5: what an item declares is declared before, or a name stands twice in it.
fn double_fault<'a>(
    alloc: Global,
    before: &DefinitionSet<'a>,
    decl: &'a Decl,
    definitions: &[Definition<'a>],
) -> Result<Fault, Memory>
    requires { map plain_definition definitions.now ≡ definitions_of (plain_item decl.now) }
    ensures { IfOk result (λ f. f ≡ double_fault before.now (plain_item decl.now)) }
{
    match doubled(alloc, before, decl, definitions)? {
        Some(id) => {
            let what = messages::of_name(alloc, &id, b" is defined twice")?;
            Ok(Some((Rule::N5, what)))
        }
        None => Ok(None),
    }
}

fn doubled<'a>(
    alloc: Global,
    before: &DefinitionSet<'a>,
    decl: &'a Decl,
    definitions: &[Definition<'a>],
) -> Result<Option<NameArity<'a>>, Memory>
    ensures { IfOk result
        (λ id.
        option_map plain_name_arity id
        ≡ option_or (again before.now (map plain_definition definitions.now))
        (twice_in (plain_item decl.now))) }
{
    match definitions {
        [definition, ..] if before.contains(*definition) => Ok(Some(definition.id)),
        _ => twice_in(alloc, decl),
    }
}

// The predicate or function that a clause or a further mode is of.
fn subject_of(decl: &Decl) -> Option<Definition<'_>>
    ensures { option_map plain_definition result
        ≡ option_or (clause_of (plain_item decl.now)) (mode_of (plain_item decl.now)) }
{
    match clause_of(decl) {
        Some(definition) => Some(definition),
        None => mode_of(decl),
    }
}
