// Plans and lists as C functions: each calls its like of `c_plan` or `c_plans`, under the same contract.
#![tactic(auto)]

ghost use Rattle.std.specs.Prelude.{◌≡◌, length};
ghost use Rattle.buffer.specs.Buffer.{Listed};
ghost use Rattle.block_text.specs.Listing.{text_of};
ghost use Rattle.block_read.specs.Block.{read_of};
ghost use Rattle.c_plan.specs.Planned.{planned_from};
ghost use Rattle.c_plan.specs.Sent.{widths_told, plan_sent, plan_left};
ghost use Rattle.c_plans.specs.Lists.{read_sent, checked_of, check_told, merge_sent, merge_left, rewrite_sent, rewrite_left, join_sent, join_told, join_left};

// The plan between two encodings, as a block of this version; told are its number, length, start width and end width.
#[unsafe(no_mangle)]
pub extern "C" fn rindsaddle_plan(
    source: &[i32; 14],
    target: &[i32; 14],
    settings: &[f32; 14],
    detect_peak: u8,
    from_pq: u8,
    version: u16,
    out: &mut [u8],
    told: &mut [u64; 4],
) -> u8
    ensures value { result ≡ (plan_sent (planned_from source.now target.now settings.now detect_peak from_pq) version (length out.old)).number }
    ensures told_after { told.new ≡ widths_told (plan_sent (planned_from source.now target.now settings.now detect_peak from_pq) version (length out.old)) }
    ensures out_after { out.new ≡ plan_left (planned_from source.now target.now settings.now detect_peak from_pq) version out.old }
{
    c_plan::rindsaddle_plan(
        source,
        target,
        settings,
        detect_peak,
        from_pq,
        version,
        out,
        told,
    )
}

// What the reader says of a block; told are number, length used, start width and end width. What lies behind that length is the picture's.
#[unsafe(no_mangle)]
pub extern "C" fn rindsaddle_read(bytes: &[u8], told: &mut [u64; 4]) -> u8
    ensures value { result ≡ (read_sent (read_of bytes.now)).number }
    ensures told_after { told.new ≡ widths_told (read_sent (read_of bytes.now)) }
{
    c_plans::rindsaddle_read(bytes, told)
}

// What the check says of a block's list; told are number, position, width and the block's version.
#[unsafe(no_mangle)]
pub extern "C" fn rindsaddle_check(bytes: &[u8], told: &mut [u64; 4]) -> u8
    ensures value { result ≡ (checked_of (read_of bytes.now)).number }
    ensures told_after { told.new ≡ check_told (read_of bytes.now) }
{
    c_plans::rindsaddle_check(bytes, told)
}

// The list of a block merged, as a block of the same version; told are number, length, start width and end width.
#[unsafe(no_mangle)]
pub extern "C" fn rindsaddle_merge(bytes: &[u8], out: &mut [u8], told: &mut [u64; 4]) -> u8
    ensures value { result ≡ (merge_sent (read_of bytes.now) (length out.old)).number }
    ensures told_after { told.new ≡ widths_told (merge_sent (read_of bytes.now) (length out.old)) }
    ensures out_after { out.new ≡ merge_left (read_of bytes.now) out.old }
{
    c_plans::rindsaddle_merge(bytes, out, told)
}

// The list of a block as a block of this version; told are number, length, start width and end width.
#[unsafe(no_mangle)]
pub extern "C" fn rindsaddle_rewrite(
    bytes: &[u8],
    version: u16,
    out: &mut [u8],
    told: &mut [u64; 4],
) -> u8
    ensures value { result ≡ (rewrite_sent (read_of bytes.now) version (length out.old)).number }
    ensures told_after { told.new ≡ widths_told (rewrite_sent (read_of bytes.now) version (length out.old)) }
    ensures out_after { out.new ≡ rewrite_left (read_of bytes.now) version out.old }
{
    c_plans::rindsaddle_rewrite(bytes, version, out, told)
}

// The list of one block behind that of another, as a block of this version; told are number, position, length and end width.
#[unsafe(no_mangle)]
pub extern "C" fn rindsaddle_join(
    first: &[u8],
    second: &[u8],
    version: u16,
    out: &mut [u8],
    told: &mut [u64; 4],
) -> u8
    ensures value { result ≡ (join_sent (read_of first.now) (read_of second.now) version (length out.old)).number }
    ensures told_after { told.new ≡ join_told (read_of first.now) (read_of second.now) version (length out.old) }
    ensures out_after { out.new ≡ join_left (read_of first.now) (read_of second.now) version out.old }
{
    c_plans::rindsaddle_join(first, second, version, out, told)
}

// The text of a block's list, or of why it is refused, at the front of the buffer; the answer is its length.
#[unsafe(no_mangle)]
pub extern "C" fn rindsaddle_text(bytes: &[u8], out: &mut [u8; 1024]) -> usize
    ensures { Listed (text_of bytes.now) out.old out.new result }
{
    c_plans::rindsaddle_text(bytes, out)
}
