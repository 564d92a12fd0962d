use crate::answers::{PermissionView, ScopeView};
use ante_json_text::{Member, Scalar, ToJson, put_object};
use ante_pack::Bytes;
use std::alloc::{AllocError, Global};

impl ToJson for PermissionView {
    ghost use Rattle.ante_views.specs.Views.{permission_value};

    ghost value = { permission_value };

    #[tactic(auto, unfolding(crate::specs::Views::permission_value))]
    fn put_json(&self, alloc: Global, out: &mut Bytes) -> Result<(), AllocError> {
        put_object(
            alloc,
            out,
            &[
                Member(b"packed_auth", Scalar::Bytes(&self.packed_auth)),
                Member(b"parent", Scalar::Name(self.parent)),
                Member(b"perm_name", Scalar::Name(self.perm_name)),
            ],
        )
    }
}

impl ToJson for ScopeView {
    ghost use Rattle.ante_views.specs.Views.{scope_value};

    ghost value = { scope_value };

    #[tactic(auto, unfolding(crate::specs::Views::scope_value))]
    fn put_json(&self, alloc: Global, out: &mut Bytes) -> Result<(), AllocError> {
        put_object(
            alloc,
            out,
            &[
                Member(b"code", Scalar::Name(self.code)),
                Member(b"count", Scalar::Number(u64::from(self.count))),
                Member(b"payer", Scalar::Name(self.payer)),
                Member(b"scope", Scalar::Name(self.scope)),
                Member(b"table", Scalar::Name(self.table)),
            ],
        )
    }
}
