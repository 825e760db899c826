ghost use Rattle.std.specs.Prelude.{◌≡◌, ◌⊎◌, map, get_or, IfOk};
ghost use Rattle.mc_model.specs.PlainGoals.{plain_node, plain_proc};
ghost use Rattle.mc_flat_code.specs.Running.{IsCode};
ghost use Rattle.mc_flat_code.specs.Standing.{StandsFor, StandsForAll, procedure_at};
ghost use Rattle.mc_flat_code.specs.Mentions.{Mention, Mentions, BodiesMention, CodeMentions};

use crate::code::{Body, Code, FlatProgram};
use mc_base::Memory;
use mc_model::sched::Proc;
use std::alloc::Global;

impl FlatProgram {
    /// The code of procedures, by their numbers, which mentions no more than they do. The one refusal is want of memory.
    pub fn of(alloc: Global, procedures: &[Proc]) -> Result<FlatProgram, Memory>
        ensures code { IfOk result (λ program. IsCode program.code) }
        ensures stands { IfOk result (λ program.
            StandsForAll program (procedure_at procedures.now)) }
        ensures mentions { IfOk result (λ program. (m : Mention) → CodeMentions program.code m
            → BodiesMention (map plain_proc procedures.now) m) }
    {
        let mut code = Code::new(alloc)?;
        let mut bodies = Vec::with_capacity(alloc, procedures.len())?;
        for procedure in procedures {
            bodies.push(code.body(alloc, procedure)?)?;
        }
        Ok(FlatProgram { code, bodies })
    }
}

/// The code of a program's procedures and of a query over them.
#[derive(Drop)]
pub struct FlatQuery {
    pub program: FlatProgram,
    pub query: Body,
}

impl FlatQuery {
    ghost use Rattle.std.specs.Prelude.{ℕ};
    ghost use Rattle.mc_model.specs.Scheduled.{Procedure};

    /// Puts the code of a query, which is no procedure of the program, behind the code of the program.
    pub fn over(alloc: Global, program: FlatProgram, query: &Proc) -> Result<FlatQuery, Memory>
        requires { IsCode program.code }
        ensures code { IfOk result (λ flat. IsCode flat.program.code) }
        ensures program { IfOk result (λ flat. (procs : ℕ → Procedure)
            → StandsForAll program procs → StandsForAll flat.program procs) }
        ensures query { IfOk result (λ flat.
            StandsFor flat.program.code flat.query (plain_proc query.now)) }
        ensures mentions { IfOk result (λ flat. (m : Mention) → CodeMentions flat.program.code m
            → CodeMentions program.code m ⊎ Mentions (plain_node query.now.body) m) }
    {
        let FlatProgram { mut code, bodies } = program;
        let query = code.body(alloc, query)?;
        Ok(FlatQuery {
            program: FlatProgram { code, bodies },
            query,
        })
    }
}
