// What the words of a run are answered with.

ghost use Rattle.std.specs.Prelude.{◌≡◌, ◌∷◌, [], codes, map, string_bytes, IfOk};
ghost use Rattle.trex_words.specs.Asked.{asked};
ghost use Rattle.trex_rpc.specs.Answer.{IsReply, start_reply};

use crate::reply::{Reply, says, says_usage};
use std::alloc::Global;
use trex_io::Memory;
use trex_words::{Asked, read_words};

/// The reply to a start by its words, `run` among them.
pub(crate) fn start_reply(alloc: Global, words: &[String]) -> Result<Reply, Memory>
    ensures value { IfOk result (λ r. r ≡ start_reply (asked (map string_bytes words.now))) }
    ensures ranges { IfOk result IsReply }
{
    match read_words(words) {
        Ok(Asked::Run(ask)) => Ok(Reply::Start(ask)),
        Ok(_) => says(alloc, b""),
        Err(usage) => says_usage(alloc, &usage),
    }
}
