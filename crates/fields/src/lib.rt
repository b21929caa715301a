// Fields of a file, in the order in which they are asked: definitions and lemmas that the readers of
// both files share. A change of how a file is refused in general is made here.
#![tactic(auto)]
