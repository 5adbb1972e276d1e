// The two forms of certificate.

/// What a certificate's lines may say. The first line names the form.
#[derive(Clone, Copy)]
pub enum Form {
    /// Edges and names are decided, and nothing else.
    Long,
    /// Also whether a member of one category reaches one of another. Each member is known to reach `all`.
    Short,
}
