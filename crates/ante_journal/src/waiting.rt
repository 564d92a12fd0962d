use ante_json::ApiRequest;

/// A request that was taken and isn't answered yet.
#[derive(Debug, Drop)]
pub struct Waiting {
    pub link: u32,
    /// Whether the link closes after the reply.
    pub close: bool,
    /// None where memory is wanted for it.
    pub asked: Option<ApiRequest>,
}
