// The program on the files of each folder of data/ that standard input names, one to a line, after the folder's name; what it
// must print is in stdout. What stands behind byte 40,000 of a roll is not looked at, and a missing file counts as empty.
#![tactic(auto)]

use case_input::fill;
use std::rt::Files;
use text::Pen;

// A folder's name and a file's in it, as far as there is room.
fn path<'a>(room: &'a mut [u8], folder: &[u8], file: &[u8]) -> &'a [u8] {
    let mut pen = Pen::new(room, 0);
    pen.word(folder);
    pen.word(file);
    let end = pen.at.min(room.len());
    &room[..end]
}

fn tell(rt: &(impl Files + Print + Eprint), name: &[u8]) {
    let _ = rt.write_all(name);
    let _ = rt.write_all(b"\n");
    let mut plan_room = [0u8; 64];
    let mut roll_room = [0u8; 64];
    let plan_path = path(&mut plan_room, name, b"/yard.plan");
    let roll_path = path(&mut roll_room, name, b"/yard.roll");
    rehearsal::rehearse_files(rt, plan_path, roll_path);
}

fn main(rt: HostRuntime) {
    let mut names = [0u8; 1024];
    let len = fill(&mut rt.reader(), &mut names);
    for line in names[..len].split_inclusive(|b| *b == b'\n') {
        if let Some(name) = line.strip_suffix(b"\n") {
            tell(&rt, name);
        }
    }
}
