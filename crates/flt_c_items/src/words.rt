//! The words that say what an item is.

/// The numbers of spellings that say what an item is. A word that no file has has a number that no token has.
#[derive(Clone, Copy)]
pub struct Words {
    /// `extern`
    pub linkage: u32,
    /// `namespace`
    pub namespace: u32,
    /// `static`
    pub internal: u32,
    /// `void`
    pub nothing: u32,
    /// `VOID`
    pub no_value: u32,
    /// `FLT_OPERATION_REGISTRATION`
    pub operations: u32,
    /// `FLT_CONTEXT_REGISTRATION`
    pub contexts: u32,
    /// `FLT_REGISTRATION`
    pub registration: u32,
}
