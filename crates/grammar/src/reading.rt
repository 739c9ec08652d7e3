// The same table with what each rule is read as, and the laws of both machines: what a tree writes is read as that tree,
// what is read is written by one right tree alone, and the two machines take the same tokens; no code.
//
// Contract: definitions and laws.
