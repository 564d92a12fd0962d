use ante_json::ApiFault;
use ante_pack::Digest;
use ante_types::Trace;
use ante_views::ViewAnswer;

/// What a request is answered.
#[derive(Debug, Drop)]
pub enum ApiReply {
    View(ViewAnswer),
    Trace(Trace),
    /// A block that was taken, and the last position of the applied list.
    Pushed {
        block_id: Digest,
        kept: bool,
        position: u64,
    },
    Fault(ApiFault),
}
