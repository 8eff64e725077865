// A script's statements, run one after another, and the text of their replies.
ghost use Rattle.std.specs.Prelude.{◌≡◌, ◌<◌, ◌^◌, length, IfOk};
ghost use Rattle.hc_transcript.specs.Text.{output_text};
ghost use Rattle.hc_meaning.specs.Database.{empty_db};
ghost use Rattle.hc_meaning.specs.Played.{played, played_alone};

use crate::engine::Engine;
use hc_meaning::Statement;
use hc_range::Bytes;
use hc_reply::print;
use hc_transcript::{Reply, Transcript};
use hc_value::NoMemory;
use sqlite_items::Items;
use std::alloc::Global;

/// The printed output of a script, which is the setup script, that of connection 0.
pub fn run_script(alloc: Global, statements: &[Statement]) -> Result<Bytes, NoMemory>
    requires { length statements.now < 2 ^ 32 }
    ensures { IfOk result (λ output. output ≡ output_text (played_alone statements.now)) }
{
    let replies = replies_to(alloc, statements)?;
    if replies.is_empty() {
        return print(alloc, &[]);
    }
    let replies = Items::from_vec(replies);
    print(alloc, &[Transcript { conn: 0, replies }])
}

fn replies_to(alloc: Global, statements: &[Statement]) -> Result<Vec<Reply>, NoMemory>
    requires { length statements.now < 2 ^ 32 }
    ensures { IfOk result (λ replies. replies.items ≡ played 0 empty_db statements.now) }
{
    let mut engine = Engine::new(alloc);
    let mut replies = Vec::with_capacity(alloc, statements.len())?;
    for statement in statements {
        replies.push(engine.execute(alloc, statement)?)?;
    }
    Ok(replies)
}
