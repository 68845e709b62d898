// A list written into the caller's bytes, and what is told of it.
ghost use Rattle.std.specs.Prelude.{◌≡◌, length};
ghost use Rattle.c_plan.specs.Sent.{refused, sent_by, sent_after, left_after, widths_told};

use block_write::WriteError;
use list::Plan;

// The number, the length used, and the widths; zeros behind the number of a refusal. Kept as numbers: C is told them so.
#[derive(Clone, Copy, Debug, PartialEq, Eq)]
pub struct Sent {
    pub number: u8,
    pub length: usize,
    pub start: u8,
    pub end: u8,
}

fn refused(number: u8) -> Sent
    ensures { result ≡ refused number }
{
    Sent {
        number,
        length: 0,
        start: 0,
        end: 0,
    }
}

fn sent_by(plan: Plan, writing: Result<usize, WriteError>) -> Sent
    ensures { result ≡ sent_by plan writing }
{
    match writing {
        Ok(length) => Sent {
            number: 0,
            length,
            start: plan.start,
            end: plan.end,
        },
        Err(e) => refused(block_write::paper(Err(e)).number),
    }
}

// Writes the list, unless something was refused before.
pub fn send(number: u8, plan: Plan, version: u16, out: &mut [u8]) -> Sent
    ensures value { result ≡ sent_after number plan version (length out.old) }
    ensures out_after { out.new ≡ left_after number plan version out.old }
{
    if number != 0 {
        return refused(number);
    }
    sent_by(plan, block_write::write(plan, version, out))
}

pub fn tell_widths(told: &mut [u64; 4], sent: Sent)
    ensures { told.new ≡ widths_told sent }
{
    c_told::tell_numbers(
        told,
        sent.number as u64,
        sent.length as u64,
        sent.start as u64,
        sent.end as u64,
    );
}

pub fn send_and_tell(
    number: u8,
    plan: Plan,
    version: u16,
    out: &mut [u8],
    told: &mut [u64; 4],
) -> u8
    ensures value { result ≡ (sent_after number plan version (length out.old)).number }
    ensures told_after { told.new ≡ widths_told (sent_after number plan version (length out.old)) }
    ensures out_after { out.new ≡ left_after number plan version out.old }
{
    let sent = send(number, plan, version, out);
    tell_widths(told, sent);
    sent.number
}
