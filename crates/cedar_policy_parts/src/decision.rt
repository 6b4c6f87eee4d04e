// What is decided of a request.

/// What a request comes to. (Cedar language reference, "Authorization".)
#[derive(Clone, Copy, Debug, PartialEq, Eq)]
pub enum Decision {
    /// The request is allowed.
    Allow,
    /// The request is denied.
    Deny,
}
