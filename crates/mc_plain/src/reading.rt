ghost use Rattle.std.specs.Prelude.{◌≡◌, ℕ, List, Some, OnOk, drop};
ghost use Rattle.mc_model.specs.Stream.{apply_items, gather};
ghost use Rattle.mc_builtins.specs.Reading.{IsNext};
ghost use Rattle.mc_plain.specs.Values.{HasResults};
ghost use Rattle.mc_plain.specs.Atoms.{ReadsFrom};
ghost use Rattle.mc_flat_code.specs.Running.{variables_at};
ghost use Rattle.mc_plain.specs.Rest.{reads, WantsLine, IsFed};
ghost use Rattle.mc_plain.specs.code.RunState.{meaning, machine_of, rest_in, IsRunContext, IsReady, IsAt, IsWaiting};

use crate::state::{NextAction, RunContext, RunState};
use mc_base::Memory;
use mc_flat_code::code::{Instr, Span};
use mc_model::run::Input;
use mc_program::builtin::Builtin;
use std::alloc::Global;

impl RunState {
    /// Feeds a run that wants a line with what comes next in the input: what is left then is what follows its wish for
    /// it. First the run goes on to the goal that reads, unless it stands there.
    pub fn feed(&mut self, alloc: Global, t: &RunContext<'_>, line: &Input) -> Result<(), Memory>
        requires setting { IsRunContext t.now }
        requires ready { IsReady t.now self.old }
        requires wants { WantsLine (Some (rest_in t.now self.old)) }
        ensures ready { OnOk result (IsReady t.now self.new) }
        ensures fed { OnOk result
            (IsFed line.now (Some (rest_in t.now self.old)) (Some (rest_in t.now self.new))) }
    {
        self.next(alloc, t)?;
        self.read_there(alloc, t, line)?;
        Ok(())
    }

    /// Feeds a run that stands at the goal that reads.
    fn read_there(&mut self, alloc: Global, t: &RunContext<'_>, line: &Input) -> Result<(), Memory>
        requires { (from : ℕ) × IsWaiting t.now self.old from }
        ensures ready { OnOk result (IsReady t.now self.new) }
        ensures fed { OnOk result
            (IsFed line.now (Some (rest_in t.now self.old)) (Some (rest_in t.now self.new))) }
    {
        match &self.control.now {
            NextAction::At(place) => {
                let place = *place;
                match t.flat.code.goal(place) {
                    Some(Instr::Apply(Builtin::ReadLine, inputs, outputs, next)) => {
                        self.read(alloc, t, place, inputs, outputs, next, line)?;
                        Ok(())
                    }
                    _ => unreachable!(),
                }
            }
            _ => unreachable!(),
        }
    }

    /// A goal that reads, where it is fed what comes next in the input: what is left then is what follows its wish for it.
    fn read(
        &mut self,
        alloc: Global,
        t: &RunContext<'_>,
        _place: u32,
        inputs: Span,
        outputs: Span,
        next: u32,
        line: &Input,
    ) -> Result<(), Memory>
        requires at { IsAt t.now self.old _place (Instr.Apply Builtin.ReadLine inputs outputs next) }
        requires results { HasResults t.now.library }
        ensures ready { OnOk result (IsReady t.now self.new) }
        ensures reads { OnOk result ((input : List ℕ) (from : ℕ) →
            let e = (machine_of t.now self.old).bindings in
            let code = t.now.flat.code in
            ReadsFrom from (apply_items (meaning t.now input Builtin.ReadLine)
            (variables_at code outputs) e (gather (variables_at code inputs) e)) →
            IsNext (drop from input) line.now →
            rest_in t.now self.old input ≡ reads from (rest_in t.now self.new input)) }
    {
        let given = t.flat.code.variables(inputs);
        let taken = t.flat.code.variables(outputs);
        let (heap, refs) = (&mut self.heap, &mut self.refs);
        self.control
            .feed(alloc, given, taken, line, heap, &t.library, refs, next)?;
        Ok(())
    }
}
