#![tactic(auto)]
// What judging rests on: interpretations, models and branches stand in specs/, and each function here has theorems
// about them as its contract.
ghost use Rattle.semantics.specs.Theorems.{OwnModel, OwnExact, OneOwn, OwnAgrees, OneTable, TableFrom, FulfilledFrom};
ghost use Rattle.semantics.specs.Theorems.{OneThing, NoClash, Forced, DeniedAll, ToldAlike, Split, Refutation};
ghost use Rattle.semantics.specs.Theorems.{Denial, CounterInstance, OneTruth, OneComparison};
ghost use Rattle.semantics.specs.Theorems.{SomeBytes, OneBytes, SameBytes, WhichBytes, OneAnswer, OwnVariables, AllExamples};

// A branch without clash that fulfils lawful clauses: its own model is one of them; what holds in it; and it agrees with
// the branch.
pub fn own_model() -> ()
    ensures model { OwnModel }
    ensures exact { OwnExact }
    ensures one { OneOwn }
    ensures agrees { OwnAgrees }
{}

// A branch has one class table, and what shows that a table is it.
pub fn class_table() -> ()
    ensures one { OneTable }
    ensures from { TableFrom }
{}

// To see that a branch fulfils clauses, four names at a time are enough.
pub fn fulfilling() -> ()
    ensures { FulfilledFrom }
{}

// What agrees with a branch makes linked names one thing, and meets no clash.
pub fn agreement() -> ()
    ensures thing { OneThing }
    ensures clash { NoClash }
{}

// A model that agrees with the branch agrees with the branch after each step.
pub fn one_step() -> ()
    ensures forced { Forced }
    ensures conflict { DeniedAll }
    ensures alike { ToldAlike }
    ensures split { Split }
{}

// How a branch is refuted.
pub fn refuting() -> ()
    ensures { Refutation }
{}

// What a supposition's having a model says.
pub fn suppositions() -> ()
    ensures denial { Denial }
    ensures counter { CounterInstance }
{}

// A literal gets one answer, and two books get one.
pub fn judgements() -> ()
    ensures truth { OneTruth }
    ensures comparison { OneComparison }
{}

// Interpretations as bytes: each has one list of bytes, what the bytes settle, and which bytes are those of one.
pub fn interpretation_bytes() -> ()
    ensures some { SomeBytes }
    ensures one { OneBytes }
    ensures same { SameBytes }
    ensures which { WhichBytes }
{}

// A check of a model has one answer, and a clause's own variables are all that it has to look at.
pub fn check_answers() -> ()
    ensures one { OneAnswer }
    ensures own { OwnVariables }
{}

// The worked examples, all together.
pub fn worked_examples() -> ()
    ensures { AllExamples }
{}
