use syntax::Span;

/// What a name or an expression stands for at its place in a command.
#[derive(Clone, Copy, PartialEq, Eq)]
pub enum Role {
    /// `x` of `x := e`
    Assigned,
    /// `e` of `x := e`, right behind its variable
    AssignedValue,
    /// `c` of `c <- e`
    SentOn,
    /// `e` of `c <- e`, right behind its channel
    SentValue,
    /// `c` of `c -> x`
    ReceivedFrom,
    /// `x` of `c -> x`, right behind its channel
    ReceivedInto,
    /// `s` of `sync s`
    Synced,
    /// `c` of `c -> then`
    Opened,
    /// the channel of an arm of `select` or `arbitrate`
    Arm,
    /// the guard of `if` or `while`
    Guard,
    /// the expression of a `case`
    Subject,
    /// a label of a `case`
    Label,
    /// the procedure of a call
    Called,
    /// an argument of a call
    Argument,
    /// a name in an expression
    Read,
    /// the type of a cast
    CastType,
}

/// A place in a command at which something stands.
#[derive(Clone, Copy)]
pub struct Site {
    pub role: Role,
    pub span: Span,
    /// The width of an expression, where the offset that is asked for lies in its command.
    pub width: Option<u64>,
    /// The value of a label that is a number.
    pub number: Option<u64>,
    /// The body of an arm: where it begins and ends. Nothing is in it elsewhere.
    pub body: (u64, u64),
    /// The `case`, `select` or `arbitrate` to which a label, a subject or an arm belongs: the offset at which it
    /// begins.
    pub choice: u64,
}
