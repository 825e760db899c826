use crate::programs::{
    BOXED_B, BOXED_INT, BOXED_LIST, NIL, OTHER_RED, RED, applied, bare, list_of, program, query,
    union,
};
use mc_base::{Memory, Row};
use mc_program::ty::Ty;
use mc_source::name::Candidate;
use mc_typecheck::{TypeFault, check_clause, fits, signatures_of};
use mc_types::Subst;
use mc_unresolved::{Unresolved, UnresolvedClause, UnresolvedGoal};
use std::alloc::Global;
use std::test::Fail;

/// A goal of a small clause, over the variables 0 and 1.
#[derive(Clone, Copy, Debug)]
enum Small {
    /// `V = red`
    Red(u32),
    /// `V = boxed(W)`
    Boxed(u32, u32),
    /// `V = []`
    Nil(u32),
    /// `V = 1`
    One(u32),
    /// `X = Y`
    Same,
}

/// The goals that small clauses are made of.
const GOALS: [Small; 11] = [
    Small::Red(0),
    Small::Red(1),
    Small::Boxed(0, 0),
    Small::Boxed(0, 1),
    Small::Boxed(1, 0),
    Small::Boxed(1, 1),
    Small::Nil(0),
    Small::Nil(1),
    Small::One(0),
    Small::One(1),
    Small::Same,
];

const REDS: &[Candidate] = &[RED, OTHER_RED];

const BOXES: &[Candidate] = &[BOXED_INT, BOXED_LIST, BOXED_B];

const NILS: &[Candidate] = &[NIL];

impl Small {
    /// The candidates of the name in it.
    fn candidates(self) -> &'static [Candidate] {
        match self {
            Small::Red(_) => REDS,
            Small::Boxed(_, _) => BOXES,
            Small::Nil(_) => NILS,
            Small::One(_) => &[],
            Small::Same => &[],
        }
    }

    fn goal(self, alloc: Global) -> Result<UnresolvedGoal, Memory> {
        let (left, right) = match self {
            Small::Red(v) => (v, bare(alloc, REDS)?),
            Small::Boxed(v, w) => (v, applied(alloc, BOXES, Unresolved::Variable(w))?),
            Small::Nil(v) => (v, bare(alloc, NILS)?),
            Small::One(v) => (v, Unresolved::Number(1)),
            Small::Same => (0, Unresolved::Variable(1)),
        };
        Ok(UnresolvedGoal::Equation(Unresolved::Variable(left), right))
    }

    /// Whether types can be as this goal wants them, with this candidate and this free variable for its type.
    fn allows(
        self,
        alloc: Global,
        types: &mut Subst,
        pick: Option<Candidate>,
        free: u32,
    ) -> Result<bool, Memory> {
        let own = match pick {
            Some(candidate) => own_type(alloc, candidate, free)?,
            None => Ty::Int,
        };
        match self {
            Small::Red(v) | Small::Nil(v) | Small::One(v) => types.unify(&Ty::Var(v), &own),
            Small::Same => types.unify(&Ty::Var(0), &Ty::Var(1)),
            Small::Boxed(v, w) => {
                let inside = inside_type(alloc, pick, free)?;
                Ok(types.unify(&Ty::Var(w), &inside)? && types.unify(&Ty::Var(v), &own)?)
            }
        }
    }
}

/// The type of what a constructor makes.
fn own_type(alloc: Global, candidate: Candidate, free: u32) -> Result<Ty, Memory> {
    if candidate == NIL || candidate == BOXED_LIST {
        list_of(alloc, Ty::Var(free))
    } else if candidate == RED || candidate == BOXED_INT {
        Ok(union(alloc, 1))
    } else {
        Ok(union(alloc, 2))
    }
}

/// The type of what a constructor boxes.
fn inside_type(alloc: Global, candidate: Option<Candidate>, free: u32) -> Result<Ty, Memory> {
    if candidate == Some(BOXED_LIST) {
        Ok(Ty::Var(free))
    } else if candidate == Some(BOXED_INT) {
        Ok(Ty::Int)
    } else {
        Ok(union(alloc, 2))
    }
}

/// Candidates for the first goals of a small clause, and the types that they leave.
#[derive(Drop)]
struct Typing {
    picks: Vec<Candidate>,
    types: Subst,
}

impl Typing {
    /// This one with a pick for the next goal, where its types allow that.
    fn with(
        &self,
        alloc: Global,
        goal: Small,
        pick: Option<Candidate>,
        free: u32,
    ) -> Result<Option<Typing>, Memory> {
        let mut picks = Vec::from_slice(alloc, self.picks.as_slice())?;
        let mut types = self.types.copy()?;
        if let Some(candidate) = pick {
            picks.push(candidate)?;
        }
        if goal.allows(alloc, &mut types, pick, free)? {
            Ok(Some(Typing { picks, types }))
        } else {
            Ok(None)
        }
    }
}

/// All typings with a pick for one goal more, in the order of picks.
fn extended(
    alloc: Global,
    typings: &[Typing],
    goal: Small,
    free: u32,
) -> Result<Vec<Typing>, Memory> {
    let mut all = Vec::new(alloc);
    for typing in typings {
        if goal.candidates().is_empty() {
            if let Some(more) = typing.with(alloc, goal, None, free)? {
                all.push(more)?;
            }
        }
        for candidate in goal.candidates() {
            if let Some(more) = typing.with(alloc, goal, Some(*candidate), free)? {
                all.push(more)?;
            }
        }
    }
    Ok(all)
}

/// All typings of a small clause, in the order of picks.
fn typings(alloc: Global, goals: &[Small]) -> Result<Vec<Typing>, Memory> {
    let mut all = Vec::new(alloc);
    all.push(Typing {
        picks: Vec::new(alloc),
        types: Subst::new(alloc, 8)?,
    })?;
    let mut free = 2u32;
    for goal in goals {
        all = extended(alloc, all.as_slice(), *goal, free)?;
        free = free.saturating_add(1);
    }
    Ok(all)
}

/// The query that a small clause is.
fn query_of(alloc: Global, goals: &[Small]) -> Result<UnresolvedClause, Memory> {
    let mut all = Vec::new(alloc);
    for goal in goals {
        all.push(goal.goal(alloc)?)?;
    }
    query(alloc, UnresolvedGoal::AllOf(Row::of(all)?), 2)
}

/// Whether the search says of a small clause what all its typings say.
fn agrees(alloc: Global, goals: &[Small]) -> Result<bool, Memory> {
    let typings = typings(alloc, goals)?;
    let table = signatures_of(alloc, &program(alloc)?)?;
    let clause = query_of(alloc, goals)?;
    if !fits(alloc, &table, &clause)? {
        return Ok(false);
    }
    let found = check_clause(alloc, &table, &clause);
    Ok(match (&found, typings.as_slice()) {
        (Ok(_), [_]) => true,
        (Err(TypeFault::None), []) => true,
        (Err(TypeFault::Two(v, w)), [first, second, ..]) => {
            v.as_slice() == first.picks.as_slice() && w.as_slice() == second.picks.as_slice()
        }
        _ => false,
    })
}

/// Each clause of three goals.
#[test]
fn all_choices_of_small_clauses(rt: HostRuntime) -> Result<(), Fail> {
    for first in GOALS {
        for second in GOALS {
            for third in GOALS {
                let goals = [first, second, third];
                assert!(rt; agrees(rt.alloc(), &goals)?, "{goals:?}");
            }
        }
    }
    Ok(())
}
