ghost use Rattle.std.specs.Prelude.{◌≡◌, ◌++◌, [], map, OnSome};
ghost use Rattle.mc_program.specs.Programs.{expressions};
ghost use Rattle.mc_program.specs.PlainPrograms.{plain_expression, plain_goal};
ghost use Rattle.mc_accepted.specs.Resolving.{named, called};
ghost use Rattle.mc_unresolved.specs.code.Picked.{taken};

use mc_base::Row;
use mc_program::expr::Expr;
use mc_program::program::Goal;
use mc_source::name::Candidate;

/// The candidates that are picked and not yet taken, in the order of the walk.
#[derive(Drop)]
pub struct Picks<'a> {
    pub rest: &'a [Candidate],
}

impl Picks<'_> {
    /// The next one.
    fn next(&mut self) -> Option<Candidate>
        ensures { (result, self.new.rest.now) ≡ taken self.old.rest.now }
    {
        match self.rest {
            [] => None,
            [first, others @ ..] => {
                let first = *first;
                self.rest = others;
                Some(first)
            }
        }
    }

    /// A name over its arguments, as its pick has it. Where there is none left, what it is doesn't matter.
    pub fn named(&mut self, args: Row<Expr>) -> Expr
        ensures { (plain_expression result, self.new.rest.now)
            ≡ named (expressions (map plain_expression args)) self.old.rest.now }
    {
        match self.next() {
            Some(Candidate::Con(symbol)) => Expr::Con(symbol, args),
            Some(Candidate::Func(function)) => Expr::Apply(function, args),
            Some(Candidate::Char(c)) => Expr::Char(c),
            Some(Candidate::Pred(pred)) => Expr::Apply(pred, args),
            None => Expr::Con(0, args),
        }
    }

    /// An atom over its arguments, as its pick has it. Where there is none left, what it is doesn't matter.
    pub fn called(&mut self, args: Row<Expr>) -> Goal
        ensures { (plain_goal result, self.new.rest.now)
            ≡ called (expressions (map plain_expression args)) self.old.rest.now }
    {
        match self.next() {
            Some(Candidate::Pred(pred)) => Goal::Call(pred, args),
            _ => Goal::Call(0, args),
        }
    }
}
