// Replays the stored listings: random and short programs, and inputs that are refused by every number but 14. oracle/store writes its stdin.
#![tactic(auto)]

use answer_replay::Asked;
use std::io;

fn main(rt: HostRuntime) -> io::Result<()> {
    answer_replay::replay_input(&mut rt.stdin(), &mut rt.stdout(), Asked::Listing)?;
    Ok(())
}
