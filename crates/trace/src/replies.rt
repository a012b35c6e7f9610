// The ticks of the replies of a trace.
ghost use Rattle.std.specs.Prelude.{◌≡◌, ◌||◌, ◌≤◌, length, ltb, leb};
ghost use Rattle.refusals.specs.Refusals.{answer_of};
ghost use Rattle.trace.specs.Records.{replies_in};
ghost use Rattle.trace.specs.Coverage.{replies_answer};

use refusals::Refusal;

fn reply_bad(low: u32, ticks: u32, tick: u32) -> bool
    ensures { result ≡ (ltb tick low || leb ticks tick) }
{
    tick < low || ticks <= tick
}

// Refusal 10. A section has at most 65,535 replies.
pub(crate) fn check_replies(replies: &[u8], ticks: u32) -> Result<(), Refusal>
    requires { length replies.now ≤ 655350 }
    ensures { answer_of result ≡ replies_answer ticks (replies_in replies.now) 0 0 }
{
    let mut low = 0;
    for (i, reply) in replies.chunks_exact(10).enumerate() {
        let tick = bytes_le::u32_at(reply, 0);
        if reply_bad(low, ticks, tick) {
            return Err(Refusal::ReplyTick { reply: i as u32 });
        }
        low = tick;
    }
    Ok(())
}
