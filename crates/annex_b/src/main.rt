// Runs components laid out by hand as 7.1 defines them through the reader and the writer. There are some for each kind
// that Annex B shows, whole messages with them, and damaged ones. It prints a line for each: a short name, what was
// found, and `ok`, or `differs` where it is not what 7.1 says.
#![tactic(auto)]

mod annex_bodies;
mod annex_case;
mod annex_messages;

use crate::annex_case::Sheet;
use streams::send;

fn main(rt: HostRuntime) {
    let mut sheet = Sheet::new();
    annex_bodies::show_all(&mut sheet);
    annex_messages::show_all(&mut sheet);
    // Where the write failed, that was said.
    let _ = send(&rt, sheet.text());
}
