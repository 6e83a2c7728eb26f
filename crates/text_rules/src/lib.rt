// Words and numbers as text in a lent buffer: definitions in specs/ and the theorems that keep them honest. The functions that
// lay such text stand in `text`. No running code.
#![tactic(auto)]
