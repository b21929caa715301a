// What both files come to: the judgement, its numbers, and what it means. Definitions and lemmas that
// the judge, the entry for a host program and the line share. A change of the order of judging is made here.
#![tactic(auto)]
