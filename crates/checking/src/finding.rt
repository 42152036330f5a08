// What fails where an interpretation is no model.

// The first clause that fails, and the names of the variables 0 to 3 in its first failing assignment.
#[derive(Clone, Copy, PartialEq, Debug)]
pub struct Failure {
    pub clause: usize,
    pub names: [u8; 4],
}
