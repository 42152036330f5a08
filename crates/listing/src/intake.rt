// What is known of a text that was taken in.
#[derive(Clone, Copy)]
pub struct Intake {
    pub bytes: usize,
    pub lines: usize,
}
