// Replays the stored answers for images: telling ones, code of random bytes, finished code, and finished code with bytes changed. oracle/store writes its stdin.
#![tactic(auto)]

use answer_replay::Asked;
use std::io;

fn main(rt: HostRuntime) -> io::Result<()> {
    answer_replay::replay_input(&mut rt.stdin(), &mut rt.stdout(), Asked::Images)?;
    Ok(())
}
