// Plays a script of up to eight stations in memory, and prints what they say and where each stretch of each seat is.
#![tactic(auto)]

mod game;
mod map;
mod player;
mod shown;

use player::Player;
use std::io::{BufRead, BufReader, BufWriter, Write};

fn run(rt: &HostRuntime) -> anyhow::Result<()> {
    let heap = rt.alloc();
    let mut player = Player::new();
    let mut input = BufReader::new(heap, rt.stdin())?;
    let mut out = BufWriter::new(heap, rt.stdout())?;
    let mut line = Vec::new(heap);
    for _ in 0..u64::MAX {
        line.clear();
        if input.read_until(b'\n', &mut line)? == 0 {
            break;
        }
        let page = player.play(heap, &line)?;
        out.write_all(page.as_bytes())?;
    }
    let page = player.map(heap)?;
    out.write_all(page.as_bytes())?;
    out.flush()?;
    Ok(())
}

fn main(rt: HostRuntime) -> anyhow::Result<()> {
    run(&rt)
}
