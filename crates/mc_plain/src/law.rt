ghost use Rattle.mc_plain.specs.Laws.{GoodRunsStayGood, FedRunsStayGood, GoodListsAreGood};
ghost use Rattle.mc_plain.specs.Mentioned.{CodeIsNamed, ProceduresAreNamed};

/// What comes next of a good run leaves a good one, and so does what it is fed; and a run that isn't stuck is good.
pub fn good_runs()
    ensures stay { GoodRunsStayGood }
    ensures fed { FedRunsStayGood }
    ensures are { GoodListsAreGood }
{}

/// Code names what a program has, where the program has what the code mentions; so does code that mentions no more than
/// procedures do, where the program has what these mention.
pub fn made_code_is_named()
    ensures code { CodeIsNamed }
    ensures procedures { ProceduresAreNamed }
{}
