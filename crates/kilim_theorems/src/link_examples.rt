//! Examples of linking, computed by the prover: small class files with each kind of fault and at its edges, and whole programs.
//! Nothing stands on them: they show what the definitions of `kilim_link_spec` come to.

ghost use Rattle.kilim_theorems.specs.link_examples.Agreement.{FaultsAndFactsAgree};
ghost use Rattle.kilim_theorems.specs.link_examples.Details.{DetailsHold};
ghost use Rattle.kilim_theorems.specs.link_examples.Edges.{EdgesHold};
ghost use Rattle.kilim_theorems.specs.link_examples.Examples.{AIsLinked, ExamplesHold};
ghost use Rattle.kilim_theorems.specs.link_examples.Instructions.{InstructionsAgree};
ghost use Rattle.kilim_theorems.specs.link_examples.Programs.{ProgramsAreLinked};
ghost use Rattle.kilim_theorems.specs.link_examples.Relations.{RelationsHold};
ghost use Rattle.kilim_theorems.specs.link_examples.Search.{SearchesHold};
ghost use Rattle.kilim_theorems.specs.link_examples.Tables.{TablesHold};

/// A law, and no work: the class file of 235 bytes links to the program that prints 7, which is a program.
pub fn a_is_linked()
    ensures { AIsLinked }
{}

/// A law, and no work: small class files with each kind of fault have that fault.
pub fn examples_hold()
    ensures { ExamplesHold }
{}

/// A law, and no work: what members, kinds, names, frames and qualifiers of small class files come to.
pub fn details_hold()
    ensures { DetailsHold }
{}

/// A law, and no work: a woven class file and two class files link to their programs, which are programs.
pub fn programs_are_linked()
    ensures { ProgramsAreLinked }
{}

/// A law, and no work: of examples, those without a fault link to programs that keep the facts of programs, and those
/// with a fault of a fact don't.
pub fn faults_and_facts_agree()
    ensures { FaultsAndFactsAgree }
{}

/// A law, and no work: of all 256 numbers, which ones the tables of instructions have, which instruction each is, and
/// which entries of the pool it takes.
pub fn instructions_agree()
    ensures { InstructionsAgree }
{}

/// A law, and no work: numbers by order, members of the nearest ancestor, and what class files name, place by place.
pub fn searches_hold()
    ensures { SearchesHold }
{}

/// A law, and no work: code, descriptors and names of classes at their edges.
pub fn edges_hold()
    ensures { EdgesHold }
{}

/// A law, and no work: what is declared twice, overrides, stays abstract, is extended or left out, and how methods are
/// qualified and pause.
pub fn relations_hold()
    ensures { RelationsHold }
{}

/// A law, and no work: exception tables of methods that don't pause: which entries stand, what they catch, and what they link to.
pub fn tables_hold()
    ensures { TablesHold }
{}
