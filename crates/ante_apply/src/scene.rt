use ante_modcache::ModuleCache;
use ante_types::Mode;

/// What all runs of a transaction share.
#[derive(Clone, Copy)]
pub(crate) struct Scene<'a> {
    pub(crate) modules: &'a ModuleCache,
    pub(crate) mode: Mode,
    pub(crate) slot: u32,
    pub(crate) packed: &'a [u8],
}
