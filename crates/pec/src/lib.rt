// The SMBus packet error code, and read-word replies sealed and checked with it (paper 01, 'Replies').
#![tactic(auto)]

ghost use Rattle.std.specs.Prelude.{◌≡◌};
ghost use Rattle.pec.specs.Code.{pec_of};
ghost use Rattle.refusals.specs.Refusals.{answer_of, answer_as};
ghost use Rattle.pec.specs.Reply.{number_of, seal_answer, sealed, check_answer};

mod table;

use refusals::Refusal;

// The packet error code of a message.
pub fn pec(message: &[u8]) -> u8
    ensures { result ≡ pec_of message.now }
{
    let mut code = 0;
    for byte in message {
        code = table::with_byte(code, *byte);
    }
    code
}

// Writes the six bytes of a read-word reply: address, command, address, low, high, PEC.
#[tactic(auto, unfolding(crate::specs::Reply::sealed))]
pub fn seal(command: u8, word: u16, buffer: &mut [u8]) -> Result<(), Refusal>
    ensures answer { answer_of result ≡ seal_answer buffer.old }
    ensures bytes { buffer.new ≡ sealed command word buffer.old }
{
    if buffer.len() != 6 {
        return Err(Refusal::BufferLength);
    }
    let [low, high] = word.to_le_bytes();
    let body = [0x16, command, 0x17, low, high];
    // Byte by byte: a `copy_from_slice` waits until the array stands in memory, and a seal then takes more than half as long again.
    buffer[0] = body[0];
    buffer[1] = body[1];
    buffer[2] = body[2];
    buffer[3] = body[3];
    buffer[4] = body[4];
    buffer[5] = pec(&body);
    Ok(())
}

// What the check of a reply finds.
#[derive(Clone, Copy, Debug, PartialEq, Eq)]
pub enum Checked {
    Intact,
    WrongAddress,
    WrongCode,
}

impl Checked {
    // Paper 01's number of the verdict, 0 where there is none yet.
    pub fn number(self) -> u8
        ensures { result ≡ number_of self }
    {
        match self {
            Checked::Intact => 0,
            Checked::WrongAddress => 1,
            Checked::WrongCode => 2,
        }
    }
}

// Whether six bytes are a read-word reply of the pack with the right packet error code.
#[tactic(auto, unfolding(crate::specs::Reply::check_verdict))]
pub fn check(reply: &[u8]) -> Result<Checked, Refusal>
    ensures { answer_as number_of result ≡ check_answer reply.now }
{
    if reply.len() != 6 {
        return Err(Refusal::BufferLength);
    }
    if reply[0] != 0x16 || reply[2] != 0x17 {
        return Ok(Checked::WrongAddress);
    }
    if pec(&reply[..5]) != reply[5] {
        return Ok(Checked::WrongCode);
    }
    Ok(Checked::Intact)
}
