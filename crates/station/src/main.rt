// A station: it sells at its counter, and writes what it does to the file `file` of the folder that it is started in.
#![tactic(auto)]

mod part;
mod post;
mod rows;
mod start;

use anyhow::anyhow;
use post::Post;
use start::Start;
use std::env;
use std::io::{BufRead, BufReader, BufWriter, Write};

// The words that the program was started with, without its name.
fn words(rt: &HostRuntime) -> anyhow::Result<Vec<String>> {
    let mut words = Vec::new(rt.alloc());
    for word in env::args(rt)?.skip(1) {
        words.push(word)?;
    }
    Ok(words)
}

// Serves each line that is typed.
fn serve(rt: &HostRuntime, post: &mut Post, out: &mut impl Write) -> anyhow::Result<()> {
    let mut input = BufReader::new(rt.alloc(), rt.stdin())?;
    let mut line = Vec::new(rt.alloc());
    for _ in 0..u64::MAX {
        line.clear();
        if input.read_until(b'\n', &mut line)? == 0 {
            break;
        }
        let page = post.serve(&line)?;
        out.write_all(page.as_bytes())?;
        out.flush()?;
    }
    Ok(())
}

fn main(rt: HostRuntime) -> anyhow::Result<()> {
    let Some(start) = Start::read(&words(&rt)?) else {
        return Err(anyhow!(
            "start it as `station I N`, number I (from 0) of N, at most 256; at first with `new` behind"
        ));
    };
    let mut out = BufWriter::new(rt.alloc(), rt.stdout())?;
    let Some((mut post, found)) = Post::open(&rt, start)? else {
        writeln!(out, "no 1")?;
        out.flush()?;
        return Err(anyhow!("the file `file` has a bad record, and is left as it is"));
    };
    writeln!(out, "up {} {}", found.records, found.cut)?;
    out.flush()?;
    serve(&rt, &mut post, &mut out)
}
