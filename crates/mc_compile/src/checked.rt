ghost use Rattle.std.specs.Prelude.{◌≡◌, length, IfOk};
ghost use Rattle.mc_names.specs.Linked.{plain_names};
ghost use Rattle.mc_type_table.specs.Visibility.{definitions_seen};
ghost use Rattle.mc_type_phase.specs.Judging.{IsJudged};
ghost use Rattle.mc_compile.specs.Linking.{plain_named};
ghost use Rattle.mc_compile.specs.Checking.{clauses_left_out, items_of};

use crate::given::CompileFault;
use crate::named::Named;
use crate::typed::Typed;
use mc_base::{Memory, Row};
use mc_type_phase::{TypecheckOutput, TypecheckResult, TypedClause, typecheck};
use std::alloc::Global;

/// Sources whose clauses are typed: what has a table of types, and the clauses of the given files and of the library's
/// modules, in their order, and the query behind them, each with its predicate and what it is resolved to. Of the files
/// the other items are left: a clause as it was read is given up once it is typed.
#[derive(Drop)]
pub struct Checked {
    pub typed: Typed,
    pub clauses: Vec<Box<TypedClause>>,
}

// The number of the query, which follows those of the given files.
#[tactic(auto, using(crate::proofs::Clauses::given_count))]
fn query_number(named: &Named) -> u32
    ensures { result ≡ length (plain_named named.now).files.given }
{
    named.given.min(named.files.len())
}

// What typing says of the clauses of all files and of the query, and what is linked without these clauses.
fn judged(alloc: Global, named: Named) -> Result<(Named, TypecheckResult), Memory>
    ensures named { IfOk result
        (λ made. plain_named made.0 ≡ clauses_left_out (plain_named named)) }
    ensures judged { IfOk result
        (λ made.
        IsJudged (plain_names named.names) (definitions_seen (plain_names named.names))
        (items_of (plain_named named)) made.1) }
{
    let number = query_number(&named);
    let Named {
        files,
        given,
        names,
        goal,
    } = named;
    let judgement = typecheck(alloc, &names, files, number, goal.as_ref())?;
    let TypecheckOutput { judged, others } = judgement;
    let named = Named {
        files: others,
        given,
        names,
        goal,
    };
    Ok((named, judged))
}

impl Checked {
    ghost use Rattle.mc_compile.specs.Phases.{Tells};
    ghost use Rattle.mc_compile.specs.Typing.{plain_typed};
    ghost use Rattle.mc_compile.specs.Checking.{Clauses, Shows};

    /// Types the clauses of the given files and of the library's modules, and the goal of the query.
    ///
    /// # Errors
    ///
    /// `Rejected` with the rules T1, T2 and L5 that they break: the first of each faulty one, in the order of the files,
    /// and the query's last.
    pub fn of(alloc: Global, typed: Typed) -> Result<Checked, CompileFault>
        ensures { Tells Clauses Shows (plain_typed typed) result }
    {
        let Typed { named, types } = typed;
        let (named, judged) = judged(alloc, named)?;
        let TypecheckResult { clauses, broken } = judged;
        if broken.is_empty() {
            let typed = Typed { named, types };
            return Ok(Checked { typed, clauses });
        }
        Err(CompileFault::Rejected(Row::of(broken)?))
    }
}
