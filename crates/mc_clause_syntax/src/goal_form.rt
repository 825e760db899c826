ghost use Rattle.std.specs.Prelude.{◌≡◌, ◌≤◌};
ghost use Rattle.mc_term_data.specs.Names.{found};

use mc_base::Text;

/// What a goal is, by its name and the number of its parts: the one table of the forms of goals, which every phase that
/// reads goals asks.
#[derive(Clone, Copy, Debug, PartialEq, Eq)]
pub enum GoalForm {
    /// `true`
    True,
    /// `fail`, `false`
    Fail,
    /// `A, B`
    Conjunction,
    /// `A ; B`
    Disjunction,
    /// `C -> T`
    Arrow,
    /// `if C then T`, which an `else` follows
    If,
    /// `C then T`
    Then,
    /// `if C then T else E`
    Else,
    /// `not A`, `\+ A`
    Negation,
    /// `some [V] A`
    Existential,
    /// `all [V] A`
    Universal,
    /// `A => B`
    Implication,
    /// `A <= B`
    ReverseImplication,
    /// `A <=> B`
    Equivalence,
    /// `X = Y`
    Unification,
    /// `X \= Y`
    Disunification,
    /// Any other name is called.
    Call,
}

impl GoalForm {
    ghost use Rattle.mc_clause_syntax.specs.GoalForms.{goal_form, goal_rows, parts, admits, one_equivalence};

    /// What a name over so many parts is as a goal. A qualified name is called.
    pub fn of(name: &[Text], arity: usize) -> GoalForm
        ensures { result ≡ goal_form name.now arity }
    {
        match name {
            [word] => GoalForm::named(word.bytes(), arity).unwrap_or(GoalForm::Call),
            _ => GoalForm::Call,
        }
    }

    // The form that a name over so many parts has, where it isn't called.
    #[tactic(auto, unfolding(crate::specs::GoalForms::goal_rows))]
    fn named(name: &[u8], arity: usize) -> Option<GoalForm>
        ensures { result ≡ found goal_rows name.now arity }
    {
        match arity {
            0 => GoalForm::alone(name),
            1 => GoalForm::over_one(name),
            2 => GoalForm::over_two(name),
            _ => None,
        }
    }

    // The form of a name without parts.
    #[tactic(auto, unfolding(crate::specs::GoalForms::goal_rows))]
    fn alone(name: &[u8]) -> Option<GoalForm>
        ensures { result ≡ found goal_rows name.now 0 }
    {
        if b"true".as_slice() == name {
            return Some(GoalForm::True);
        }
        if b"fail".as_slice() == name || b"false".as_slice() == name {
            return Some(GoalForm::Fail);
        }
        None
    }

    // The form of a name over one part.
    #[tactic(auto, unfolding(crate::specs::GoalForms::goal_rows))]
    fn over_one(name: &[u8]) -> Option<GoalForm>
        ensures { result ≡ found goal_rows name.now 1 }
    {
        if b"if".as_slice() == name {
            return Some(GoalForm::If);
        }
        if b"not".as_slice() == name || b"\\+".as_slice() == name {
            return Some(GoalForm::Negation);
        }
        None
    }

    // The form of a name over two parts.
    #[tactic(auto, unfolding(crate::specs::GoalForms::goal_rows))]
    fn over_two(name: &[u8]) -> Option<GoalForm>
        ensures { result ≡ found goal_rows name.now 2 }
    {
        if b",".as_slice() == name {
            return Some(GoalForm::Conjunction);
        }
        if b";".as_slice() == name {
            return Some(GoalForm::Disjunction);
        }
        if b"->".as_slice() == name {
            return Some(GoalForm::Arrow);
        }
        if b"then".as_slice() == name {
            return Some(GoalForm::Then);
        }
        if b"else".as_slice() == name {
            return Some(GoalForm::Else);
        }
        if b"some".as_slice() == name {
            return Some(GoalForm::Existential);
        }
        if b"all".as_slice() == name {
            return Some(GoalForm::Universal);
        }
        if b"=>".as_slice() == name {
            return Some(GoalForm::Implication);
        }
        if b"<=".as_slice() == name {
            return Some(GoalForm::ReverseImplication);
        }
        if b"<=>".as_slice() == name {
            return Some(GoalForm::Equivalence);
        }
        if b"=".as_slice() == name {
            return Some(GoalForm::Unification);
        }
        if b"\\=".as_slice() == name {
            return Some(GoalForm::Disunification);
        }
        None
    }

    /// What the parts of a goal are.
    pub fn parts(self) -> Parts
        ensures { result ≡ parts self }
    {
        match self {
            GoalForm::True | GoalForm::Fail => Parts::Nothing,
            GoalForm::Disjunction => Parts::Goals(GoalContext::Disjunct, GoalContext::Whole),
            GoalForm::If => Parts::Goals(GoalContext::BehindIf, GoalContext::BehindIf),
            GoalForm::Else => Parts::Goals(GoalContext::BeforeElse, GoalContext::Whole),
            GoalForm::Existential | GoalForm::Universal => Parts::Quantified,
            GoalForm::Unification | GoalForm::Disunification => Parts::Sides,
            GoalForm::Call => Parts::Arguments,
            _ => Parts::Goals(GoalContext::Whole, GoalContext::Whole),
        }
    }

    /// How many equivalences a goal of this form is, without its parts.
    pub fn equivalences(self) -> u32
        ensures value { result ≡ one_equivalence self }
        ensures small { result ≤ 1 }
    {
        match self {
            GoalForm::Equivalence => 1,
            _ => 0,
        }
    }

    /// Whether a goal of this form may stand there.
    pub fn may_stand(self, stand: GoalContext) -> bool
        ensures { result ≡ admits self stand }
    {
        match self {
            GoalForm::Arrow => matches!(stand, GoalContext::Disjunct),
            GoalForm::If => matches!(stand, GoalContext::BeforeElse),
            GoalForm::Then => matches!(stand, GoalContext::BehindIf),
            _ => matches!(stand, GoalContext::Whole | GoalContext::Disjunct),
        }
    }
}

/// Where a goal stands, as far as it decides which forms it may have.
#[derive(Clone, Copy, Debug, PartialEq, Eq)]
pub enum GoalContext {
    /// Any goal may stand here.
    Whole,
    /// A disjunct that others follow: it may be `C -> T`.
    Disjunct,
    /// Before `else` stands `if C then T`.
    BeforeElse,
    /// Behind `if` stands `C then T`.
    BehindIf,
}

impl GoalContext {
    ghost use Rattle.mc_clause_syntax.specs.GoalForms.{is_open};

    /// Whether any goal may stand there.
    pub fn is_open(self) -> bool
        ensures { result ≡ is_open self }
    {
        GoalForm::Call.may_stand(self)
    }
}

/// What the parts of a goal are.
#[derive(Clone, Copy, Debug, PartialEq, Eq)]
pub enum Parts {
    /// There are none.
    Nothing,
    /// Goals: the first stands in one place, the others in another.
    Goals(GoalContext, GoalContext),
    /// A list of variables, and a goal.
    Quantified,
    /// The sides of an equation.
    Sides,
    /// The arguments of a call.
    Arguments,
}
