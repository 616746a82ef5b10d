// The memory of line answers.
use crate::answer::LineAt;
use answer_runs::ANSWER_SIZE;

// The memory of a row without its path, in bytes, or a few more.
const ROW_SIZE: usize = 96;

/// The memory of an answer with its run, in bytes, or a few more.
pub fn size_of(answer: &LineAt) -> usize {
    let mut size: usize = ANSWER_SIZE;
    for row in &answer.rows {
        size = size.saturating_add(ROW_SIZE).saturating_add(row.path.len());
    }
    size
}
