// The program that crews run: it rehearses the yard in the current folder.
#![tactic(auto)]

fn main(rt: HostRuntime) {
    rehearsal::rehearse(&rt);
}
