// What a plan file holds, the bytes of what it holds, and that the two determine each other: definitions
// and lemmas that the reader and the writer of plan files share. A change of what a plan file holds, or
// of the order in which a plan is refused, is made here.
#![tactic(auto)]
