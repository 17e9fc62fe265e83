//! Whether all heads rest.

ghost use Rattle.std.specs.Prelude.{◌≡◌, OnOk, IfErr};
ghost use Rattle.db_base.specs.Limits.{last_client};
ghost use Rattle.db_base.specs.declared.trouble.Trouble.TheVariants.{Failed};
ghost use Rattle.world_audit.specs.Look.{Looked};
ghost use Rattle.dump_take.specs.declared.stop.DumpStop.TheVariants as stop;
ghost use Rattle.dump_take.specs.Quiet.{HeadRests};
ghost use Rattle.dump_take.specs.Sight.{Sees, heads_to, no_queue};
ghost use Rattle.dump_take.specs.Parts.{StopsDark, StopsAtHead, HeadsFound};

use crate::naming::not_quiet_object;
use crate::stop::DumpStop;
use cloud_trait::cloud::Bench;
use db_base::blob::Blob;
use db_base::ids::ClientId;
use db_base::names::ObjName;
use head_codec::head::Phase;
use std::alloc::Global;
use world_audit::heads::head_of;
use world_audit::look::peek;

/// Refuses a version of a client's head that is open, or that is none.
fn check_head(alloc: Global, client: ClientId, bytes: &Option<Blob>) -> Result<(), DumpStop>
    ensures rests { OnOk result (HeadRests bytes.now) }
    ensures stops { IfErr result (StopsAtHead bytes.now client) }
    ensures failed { IfErr result (λ e. e ≡ stop.Trouble Failed → ⊥) }
{
    let Some(bytes) = bytes else {
        return Ok(());
    };
    let head = head_of(alloc, client, bytes.as_slice())?;
    match head.phase {
        Phase::Settled => Ok(()),
        Phase::Open(_) => Err(not_quiet_object(alloc, ObjName::Head(client))),
    }
}

/// Looks at the heads by client, up to the first that is open or is none.
pub(crate) fn check_heads<C: Bench>(alloc: Global, cloud: &mut C) -> Result<(), DumpStop>
    ensures looked { Looked (C.seen cloud.old) (C.seen cloud.new) }
    ensures failed { StopsDark result (C.seen cloud.old) (C.seen cloud.new) }
    ensures found { Sees (C.seen cloud.old) (heads_to last_client) no_queue (HeadsFound result) }
{
    for number in 0..64u64 {
        let Ok(client) = ClientId::new(number + 1) else {
            unreachable!();
        };
        let bytes = peek(cloud, ObjName::Head(client))?;
        check_head(alloc, client, &bytes)?;
    }
    Ok(())
}
