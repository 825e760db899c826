ghost use Rattle.std.specs.Prelude.{◌≡◌, ◌<◌, ◌^◌, ◌+◌, ℕ, List, [], ◌∷◌, ◌++◌, false, map, length, OnOk, IfOk, IfSome};
ghost use Rattle.mc_model.specs.PlainGoals.{plain_node, plain_sched, plain_arm, plain_label, plain_proc, arms_of};
ghost use Rattle.mc_model.specs.Scheduled.{nodes};
ghost use Rattle.mc_program.specs.Values.{plain_value};
ghost use Rattle.mc_flat_code.specs.Running.{IsCode, Lower, EachBelow, value_at, label_of};
ghost use Rattle.mc_flat_code.specs.Standing.{At, Holds, Chain, Cased, Stands, StandsOf, StandsAll, StandsEach, StandsArms, StandsFor};
ghost use Rattle.mc_flat_code.specs.code.Building.{Grows, Laid, IsKeyed, IsChosen};
ghost use Rattle.mc_flat_code.specs.Mentions.{Mention, of_constant, Mentions, MentionsIn, AnyMentions, ArmsMention, MentionsAt, CodeMentions};
ghost use Rattle.mc_flat_code.specs.code.Mentioning.{Brings, Nothing, LabelMentions};

use crate::code::{Body, Branch, Code, Instr, Key, Span};
use crate::once::is_left;
use crate::opening::opens;
use mc_base::Memory;
use mc_model::sched::{Arm, GoalNode, On, Proc, Sched};
use mc_program::builtin::Builtin;
use mc_program::copy::copy_value;
use mc_program::value::Value;
use std::alloc::Global;

/// The place of every end: a goal that is run apart ends there.
const END: u32 = 0;

impl Code {
    /// Code that is an answer.
    pub(crate) fn new(alloc: Global) -> Result<Code, Memory>
        ensures code { IfOk result (λ code. IsCode code) }
        ensures mentions { IfOk result (λ code. (m : Mention) → CodeMentions code m → ⊥) }
    {
        let mut instrs = Vec::new(alloc);
        instrs.push(Instr::Done)?;
        Ok(Code {
            instrs,
            variables: Vec::new(alloc),
            values: Vec::new(alloc),
            branches: Vec::new(alloc),
        })
    }

    /// Puts a goal at the end.
    fn add(&mut self, goal: Instr) -> Result<u32, Memory>
        requires is_code { IsCode self.old }
        requires lower { Lower self.old (length self.old.instrs.items) goal }
        ensures laid { IfOk result (λ place. Laid self.old self.new place) }
        ensures at { IfOk result (λ place. At self.new place goal) }
        ensures brings { OnOk result (Brings self.old self.new (MentionsAt goal)) }
    {
        let place = self.instrs.len();
        if place >= u32::MAX as usize {
            return Err(Memory);
        }
        self.instrs.push(goal)?;
        Ok(place as u32)
    }

    /// Puts variables at the end of the variables.
    pub(crate) fn add_variables(&mut self, variables: &[u32]) -> Result<Span, Memory>
        ensures grows { OnOk result (Grows self.old self.new) }
        ensures others { OnOk result (self.new ≡ record self.old { variables = self.new.variables }) }
        ensures part { IfOk result (λ part. Holds self.new.variables.items part variables.now) }
    {
        let start = self.variables.len();
        if start >= u32::MAX as usize || variables.len() >= u32::MAX as usize {
            return Err(Memory);
        }
        self.variables.extend_from_slice(variables)?;
        Ok(Span {
            start: start as u32,
            count: variables.len() as u32,
        })
    }

    /// Puts a copy of a value at the end of the values.
    fn add_value(&mut self, alloc: Global, value: &Value) -> Result<u32, Memory>
        ensures grows { OnOk result (Grows self.old self.new) }
        ensures others { OnOk result (self.new ≡ record self.old { values = self.new.values }) }
        ensures value { IfOk result (λ k. value_at self.new k ≡ Some (plain_value value.now)) }
        ensures brings { OnOk result (Brings self.old self.new
            (λ m. m ≡ of_constant (plain_value value.now))) }
    {
        let k = self.values.len();
        if k >= u32::MAX as usize {
            return Err(Memory);
        }
        self.values.push(copy_value(alloc, value)?)?;
        Ok(k as u32)
    }
}

impl Code {
    ghost use Rattle.mc_model.specs.Scheduled.{Build, Const, Call, Apply};

    /// An equation of a variable and a constructor.
    fn made(&mut self, variable: u32, symbol: u32, args: &[u32], next: u32) -> Result<u32, Memory>
        requires is_code { IsCode self.old }
        requires next { next < length self.old.instrs.items }
        ensures laid { IfOk result (λ place. Laid self.old self.new place) }
        ensures stands { IfOk result (λ place.
            StandsOf self.new (Build variable symbol args.now) next place) }
        ensures brings { OnOk result (Brings self.old self.new
            (MentionsIn (Build variable symbol args.now))) }
    {
        let args = self.add_variables(args)?;
        self.add(Instr::Made(variable, symbol, args, next))
    }

    /// An equation of a variable and a constant.
    fn constant(
        &mut self,
        alloc: Global,
        variable: u32,
        value: &Value,
        next: u32,
    ) -> Result<u32, Memory>
        requires is_code { IsCode self.old }
        requires next { next < length self.old.instrs.items }
        ensures laid { IfOk result (λ place. Laid self.old self.new place) }
        ensures stands { IfOk result (λ place.
            StandsOf self.new (Const variable (plain_value value.now)) next place) }
        ensures brings { OnOk result (Brings self.old self.new
            (MentionsIn (Const variable (plain_value value.now)))) }
    {
        let value = self.add_value(alloc, value)?;
        self.add(Instr::Constant(variable, value, next))
    }

    /// A call, which isn't marked as a last one.
    fn call(&mut self, procedure: u32, args: &[u32], next: u32) -> Result<u32, Memory>
        requires is_code { IsCode self.old }
        requires next { next < length self.old.instrs.items }
        ensures laid { IfOk result (λ place. Laid self.old self.new place) }
        ensures stands { IfOk result (λ place. (implied : List ℕ)
            → StandsOf self.new (Call procedure args.now implied false) next place) }
        ensures brings { OnOk result (Brings self.old self.new Nothing) }
    {
        let args = self.add_variables(args)?;
        self.add(Instr::Call(procedure, args, false, next))
    }

    /// An application of a builtin.
    fn apply(
        &mut self,
        builtin: Builtin,
        inputs: &[u32],
        outputs: &[u32],
        next: u32,
    ) -> Result<u32, Memory>
        requires is_code { IsCode self.old }
        requires next { next < length self.old.instrs.items }
        ensures laid { IfOk result (λ place. Laid self.old self.new place) }
        ensures stands { IfOk result (λ place.
            StandsOf self.new (Apply builtin inputs.now outputs.now) next place) }
        ensures brings { OnOk result (Brings self.old self.new
            (MentionsIn (Apply builtin inputs.now outputs.now))) }
    {
        let inputs = self.add_variables(inputs)?;
        let outputs = self.add_variables(outputs)?;
        self.add(Instr::Apply(builtin, inputs, outputs, next))
    }

    /// Places are tried one after another; the last one leaves nothing behind.
    fn choice(&mut self, places: &[u32]) -> Result<u32, Memory>
        requires is_code { IsCode self.old }
        requires below { EachBelow (length self.old.instrs.items) places.now }
        ensures laid { IfOk result (λ place. Laid self.old self.new place) }
        ensures chain { IfOk result (λ place. Chain self.new places.now place) }
        ensures brings { OnOk result (Brings self.old self.new Nothing) }
    {
        match places {
            [] => self.add(Instr::Fail),
            [front @ .., last] => self.choice_before(front, *last),
        }
    }

    /// Places are tried one after another, and then one more.
    fn choice_before(&mut self, places: &[u32], last: u32) -> Result<u32, Memory>
        requires is_code { IsCode self.old }
        requires below { EachBelow (length self.old.instrs.items) places.now }
        requires last { last < length self.old.instrs.items }
        ensures laid { IfOk result (λ place. Laid self.old self.new place) }
        ensures chain { IfOk result (λ place. Chain self.new (places.now ++ last ∷ []) place) }
        ensures brings { OnOk result (Brings self.old self.new Nothing) }
    {
        let mut choice = last;
        let mut rest = places;
        while let [front @ .., place] = rest {
            choice = self.add(Instr::Or(*place, choice))?;
            rest = front;
        }
        Ok(choice)
    }

    /// What the branch of an arm is for.
    fn key(&mut self, alloc: Global, on: &On) -> Result<Key, Memory>
        ensures grows { OnOk result (Grows self.old self.new) }
        ensures others { OnOk result (self.new ≡ record self.old { values = self.new.values }) }
        ensures key { IfOk result (λ key. label_of self.new key ≡ Some (plain_label on.now)) }
        ensures brings { OnOk result (Brings self.old self.new
            (LabelMentions (plain_label on.now))) }
    {
        match on {
            On::Symbol(symbol) => Ok(Key::Symbol(*symbol)),
            On::Const(value) => Ok(Key::Constant(self.add_value(alloc, value)?)),
        }
    }

    /// The branches of arms that go on at these places, if each answer of an arm comes behind a test of the variable for
    /// what the arm is for.
    fn branches_of(
        &mut self,
        alloc: Global,
        variable: u32,
        arms: &[Arm],
        places: &[u32],
    ) -> Result<Option<Span>, Memory>
        requires { length places.now ≡ length arms.now }
        ensures grows { OnOk result (Grows self.old self.new) }
        ensures goals { OnOk result (self.new.instrs.items ≡ self.old.instrs.items) }
        ensures keyed { IfOk result (λ found. IfSome found (λ part. IsKeyed self.new variable
            (arms_of (map plain_arm arms.now)) places.now part)) }
        ensures brings { OnOk result (Brings self.old self.new
            (ArmsMention (arms_of (map plain_arm arms.now)))) }
    {
        let start = self.branches.len();
        if start >= u32::MAX as usize || arms.len() >= u32::MAX as usize {
            return Err(Memory);
        }
        for k in 0..arms.len() {
            let arm = &arms[k];
            if !opens(variable, &arm.on, &arm.body) {
                return Ok(None);
            }
            let key = self.key(alloc, &arm.on)?;
            self.branches.push(Branch {
                key,
                place: places[k],
            })?;
        }
        Ok(Some(Span {
            start: start as u32,
            count: arms.len() as u32,
        }))
    }

    /// Arms that stand in these places: by the value of the variable, if each answer of an arm comes behind the arm's test
    /// of it; else they are tried one after another.
    fn case(
        &mut self,
        alloc: Global,
        variable: u32,
        arms: &[Arm],
        places: &[u32],
    ) -> Result<u32, Memory>
        requires is_code { IsCode self.old }
        requires below { EachBelow (length self.old.instrs.items) places.now }
        requires places { length places.now ≡ length arms.now }
        ensures laid { IfOk result (λ place. Laid self.old self.new place) }
        ensures chosen { IfOk result (λ place. IsChosen self.new variable
            (arms_of (map plain_arm arms.now)) places.now place) }
        ensures brings { OnOk result (Brings self.old self.new
            (ArmsMention (arms_of (map plain_arm arms.now)))) }
    {
        let other = self.choice(places)?;
        match self.branches_of(alloc, variable, arms, places)? {
            None => Ok(other),
            Some(part) => self.add(Instr::Case(variable, part, other)),
        }
    }
}

impl Code {
    ghost use Rattle.mc_model.specs.Scheduled.{Disj, Switch, Not};

    /// The code of a goal, which goes on at a place after each answer: where it begins.
    #[cycle(flatten)]
    pub(crate) fn node(&mut self, alloc: Global, goal: &GoalNode, next: u32) -> Result<u32, Memory>
        requires is_code { IsCode self.old }
        requires next { next < length self.old.instrs.items }
        ensures laid { IfOk result (λ place. Laid self.old self.new place) }
        ensures stands { IfOk result (λ place. Stands self.new (plain_node goal.now) next place) }
        ensures brings { OnOk result (Brings self.old self.new (Mentions (plain_node goal.now))) }
    {
        if is_left(goal) {
            let inner = self.scheduled(alloc, &goal.goal, END)?;
            return self.add(Instr::Once(inner, next));
        }
        self.scheduled(alloc, &goal.goal, next)
    }

    #[cycle(flatten)]
    fn scheduled(&mut self, alloc: Global, goal: &Sched, next: u32) -> Result<u32, Memory>
        requires is_code { IsCode self.old }
        requires next { next < length self.old.instrs.items }
        ensures laid { IfOk result (λ place. Laid self.old self.new place) }
        ensures stands { IfOk result (λ place.
            StandsOf self.new (plain_sched goal.now) next place) }
        ensures brings { OnOk result (Brings self.old self.new
            (MentionsIn (plain_sched goal.now))) }
    {
        match goal {
            Sched::Conj(goals) => self.conjunction(alloc, goals.as_slice(), next),
            Sched::Disj(goals) => self.disjunction(alloc, goals.as_slice(), next),
            Sched::Switch(variable, arms) => self.switch(alloc, *variable, arms.as_slice(), next),
            Sched::Ite(_, condition, then_part, else_part) => {
                let condition = self.node(alloc, condition, END)?;
                let then_part = self.node(alloc, then_part, next)?;
                let else_part = self.node(alloc, else_part, next)?;
                self.add(Instr::If(condition, then_part, else_part))
            }
            Sched::Not(inner) => self.negation(alloc, inner, next),
            Sched::Some(_, inner) => self.node(alloc, inner, next),
            Sched::Assign(left, right) => self.add(Instr::Same(*left, *right, next)),
            Sched::Test(left, right) => self.add(Instr::Same(*left, *right, next)),
            Sched::Build(variable, symbol, args) => {
                self.made(*variable, *symbol, args.as_slice(), next)
            }
            Sched::Take(variable, symbol, args) => {
                self.made(*variable, *symbol, args.as_slice(), next)
            }
            Sched::Const(variable, value) => self.constant(alloc, *variable, value, next),
            Sched::TestConst(variable, value) => self.constant(alloc, *variable, value, next),
            Sched::Call(procedure, args, _) => self.call(*procedure, args.as_slice(), next),
            Sched::Apply(builtin, inputs, outputs) => {
                self.apply(*builtin, inputs.as_slice(), outputs.as_slice(), next)
            }
        }
    }

    /// A conjunction is made from its last goal on, so that each goal's next place is there.
    #[cycle(flatten)]
    fn conjunction(&mut self, alloc: Global, goals: &[GoalNode], next: u32) -> Result<u32, Memory>
        requires is_code { IsCode self.old }
        requires next { next < length self.old.instrs.items }
        ensures laid { IfOk result (λ place. Laid self.old self.new place) }
        ensures stands { IfOk result (λ place.
            StandsAll self.new (nodes (map plain_node goals.now)) next place) }
        ensures brings { OnOk result (Brings self.old self.new
            (AnyMentions (nodes (map plain_node goals.now)))) }
    {
        let mut place = next;
        let mut rest = goals;
        while let [front @ .., last] = rest {
            place = self.node(alloc, last, place)?;
            rest = front;
        }
        Ok(place)
    }

    #[cycle(flatten)]
    fn disjunction(&mut self, alloc: Global, goals: &[GoalNode], next: u32) -> Result<u32, Memory>
        requires is_code { IsCode self.old }
        requires next { next < length self.old.instrs.items }
        ensures laid { IfOk result (λ place. Laid self.old self.new place) }
        ensures stands { IfOk result (λ place.
            StandsOf self.new (Disj (nodes (map plain_node goals.now))) next place) }
        ensures brings { OnOk result (Brings self.old self.new
            (AnyMentions (nodes (map plain_node goals.now)))) }
    {
        let mut places = Vec::new(alloc);
        for goal in goals {
            places.push(self.node(alloc, goal, next)?)?;
        }
        self.choice(places.as_slice())
    }

    #[cycle(flatten)]
    fn switch(
        &mut self,
        alloc: Global,
        variable: u32,
        arms: &[Arm],
        next: u32,
    ) -> Result<u32, Memory>
        requires is_code { IsCode self.old }
        requires next { next < length self.old.instrs.items }
        ensures laid { IfOk result (λ place. Laid self.old self.new place) }
        ensures stands { IfOk result (λ place.
            StandsOf self.new (Switch variable (arms_of (map plain_arm arms.now))) next place) }
        ensures brings { OnOk result (Brings self.old self.new
            (ArmsMention (arms_of (map plain_arm arms.now)))) }
    {
        let mut places = Vec::new(alloc);
        for arm in arms {
            places.push(self.node(alloc, &arm.body, next)?)?;
        }
        self.case(alloc, variable, arms, places.as_slice())
    }

    #[cycle(flatten)]
    fn negation(&mut self, alloc: Global, goal: &GoalNode, next: u32) -> Result<u32, Memory>
        requires is_code { IsCode self.old }
        requires next { next < length self.old.instrs.items }
        ensures laid { IfOk result (λ place. Laid self.old self.new place) }
        ensures stands { IfOk result (λ place.
            StandsOf self.new (Not (plain_node goal.now)) next place) }
        ensures brings { OnOk result (Brings self.old self.new (Mentions (plain_node goal.now))) }
    {
        let inner = self.node(alloc, goal, END)?;
        self.add(Instr::Not(inner, next))
    }
}

impl Code {
    ghost use Rattle.mc_source.specs.Determinism.{inferred, det};
    ghost use Rattle.mc_model.specs.Scheduled.{node, Exists};

    /// A body that ends in an answer; that of a committed procedure is left after its first answer.
    fn whole(&mut self, alloc: Global, body: &GoalNode, is_committed: bool) -> Result<u32, Memory>
        requires { IsCode self.old }
        ensures laid { IfOk result (λ place. Laid self.old self.new place) }
        ensures stands { IfOk result (λ place. Stands self.new
            (node (Exists [] (plain_node body.now)) [] (inferred det) is_committed) 0 place) }
        ensures brings { OnOk result (Brings self.old self.new (Mentions (plain_node body.now))) }
    {
        let begin = self.node(alloc, body, END)?;
        if is_committed {
            return self.add(Instr::Once(begin, END));
        }
        Ok(begin)
    }

    /// The code of a procedure.
    pub(crate) fn body(&mut self, alloc: Global, procedure: &Proc) -> Result<Body, Memory>
        requires { IsCode self.old }
        ensures grows { OnOk result (Grows self.old self.new) }
        ensures is_code { OnOk result (IsCode self.new) }
        ensures stands { IfOk result (λ body.
            StandsFor self.new body (plain_proc procedure.now)) }
        ensures brings { OnOk result (Brings self.old self.new
            (Mentions (plain_node procedure.now.body))) }
    {
        let head = self.add_variables(procedure.head.as_slice())?;
        let first = self.add_variables(procedure.first.as_slice())?;
        let last = self.add_variables(procedure.last.as_slice())?;
        let entry = self.whole(alloc, &procedure.body, procedure.det.committed)?;
        Ok(Body {
            entry,
            head,
            first,
            last,
            size: procedure.var_types.len(),
        })
    }
}
