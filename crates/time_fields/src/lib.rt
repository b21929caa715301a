// Times as they lie in the bytes of a file: definitions and lemmas that the readers and writers of both
// files share. A change of how a time is coded is made in the crate of times, and followed here.
#![tactic(auto)]
