// Yards as bytes, for callers in other languages, as definitions and theorems; the code that writes and reads them stands in
// `layout`. No running code.
#![tactic(auto)]
