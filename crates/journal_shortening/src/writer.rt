/// What a line did to its subject, such as a route or a signer's greatest time.
#[derive(Clone, Copy, Debug, PartialEq, Eq)]
pub enum Effect {
    /// The line removed the subject: for example, a delete removes an object.
    Removed,
    /// The line set the subject, whatever earlier lines had done to the subject. For example, a
    /// signer's last command sets the greatest time of the signer.
    Renewed,
    /// The line set the subject. If the line is needed, the next line on the subject is needed too,
    /// since the next line may remove or change the subject.
    Set,
    /// The line set a next hop or a route through `face`, which the line with the number `up`
    /// opened. The next hop or route ends when the face closes, or at `deadline` (in milliseconds
    /// since 1970), if there is a deadline. As for `Set`, if the line is needed, the next line on
    /// the subject is needed too.
    Routed {
        face: u64,
        up: u32,
        deadline: Option<u64>,
    },
}

/// The last line that set or removed a subject.
#[derive(Clone, Copy, Debug, PartialEq, Eq)]
pub struct Writer {
    pub line: u32,
    pub effect: Effect,
}

impl Writer {
    /// Returns whether the next line on the subject is needed if this line is needed.
    pub fn needs_next(&self) -> bool {
        matches!(self.effect, Effect::Set | Effect::Routed { .. })
    }
}
