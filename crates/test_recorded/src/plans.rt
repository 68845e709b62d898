// Plans: source, target, settings; number, start width and list.
use crate::sides;
use encoding::ColourEncoding;

// Plans between the sides and compares the number, the start width and every op, field by field, floats bit for bit.
fn same_answer(source: &[u8], target: &[u8], settings: &[u8], answer: &[u8]) -> bool {
    let Some(found) = test_record::list_at(answer, 1, 2) else {
        return false;
    };
    let planned = planner::plan(
        ColourEncoding::Enum(sides::encoding_of(source)),
        ColourEncoding::Enum(sides::encoding_of(target)),
        sides::settings_of(settings),
    );
    found.next == test_record::words(answer)
        && planner::paper(planned.answer).number as u32 == test_record::word(answer, 0)
        && list_same::same_list(planned.plan, found.list)
}

pub(crate) fn same_plan(source: &[u8]) -> bool {
    let target = sides::after_encoding(source);
    let settings = sides::after_encoding(target);
    sides::is_encoding(source)
        && sides::is_encoding(target)
        && sides::is_settings(settings)
        && same_answer(source, target, settings, sides::after_settings(settings))
}
