//! Looks at the object of a put that a session has in hand.

ghost use Rattle.std.specs.Prelude.{◌≡◌, ◌≢◌, Some, None, Ok, IfOk, IsSome};
ghost use Rattle.std.specs.Option.{option_map};
ghost use Rattle.cloud_trait.specs.Call.{ask_of};
ghost use Rattle.cloud_trait.specs.State.{CloudState, newest};
ghost use Rattle.cloud_trait.specs.Weather.{Rose};
ghost use Rattle.world_audit.specs.Look.{Looked};
ghost use Rattle.world_core.specs.Put.{Put, put_by, put_of, put_of_ask, name_of, SeesNewest, SeesBefore, SeesBehind, Counts};

use crate::world::WorldFault;
use client_work::calls::SessionCalls;
use cloud_trait::call::Call;
use cloud_trait::cloud::Bench;
use cloud_trait::fault::CloudFault;
use db_base::names::ObjName;

/// What was seen of a put's object before the put.
#[derive(Clone, Copy)]
pub(crate) struct Sight {
    /// Whether the newest version has the put's bytes; none where a look failed.
    pub newest: Option<bool>,
    /// How many versions had landed; 0 where a look failed.
    pub versions: u64,
}

/// Nothing was seen.
fn dark() -> Sight
    ensures { result.newest ≡ None }
{
    Sight {
        newest: None,
        versions: 0,
    }
}

/// The object of a call that is a put.
fn object_of_call(call: &Call<'_>) -> Option<ObjName>
    ensures { result ≡ option_map name_of (put_of_ask (ask_of call.now)) }
{
    match call {
        Call::PutHeld(name, _, _, _) => Some(*name),
        Call::Get(_) => None,
        Call::GetHeld(_, _) => None,
        Call::ListHeld(_, _) => None,
        Call::RemoveHeld(_, _) => None,
        Call::Send(_, _) => None,
        Call::Receive(_, _) => None,
        Call::Delete(_, _) => None,
        Call::Take(_, _) => None,
        Call::Renew(_, _) => None,
        Call::Release(_) => None,
    }
}

/// The object of the put that the session has in hand; none where its next call is no put.
pub(crate) fn object_in_hand<S: SessionCalls>(session: &S) -> Option<ObjName>
    ensures { result ≡ option_map name_of (put_of (S.acting session.now).work) }
{
    match session.in_hand() {
        Some(call) => object_of_call(&call),
        None => None,
    }
}

/// Whether the newest version of an object has these bytes; none where the look failed.
fn is_newest<C: Bench>(
    cloud: &mut C,
    name: ObjName,
    bytes: &[u8],
) -> Result<Option<bool>, WorldFault>
    ensures looked { Looked (C.seen cloud.old) (C.seen cloud.new) }
    ensures dark { result ≡ Ok None
        → Rose (C.seen cloud.old).counts.dark (C.seen cloud.new).counts.dark }
    ensures newest { (s : CloudState) → (C.seen cloud.old).state ≡ Some s
        → IfOk result (SeesNewest (newest s) (put_by name bytes.now)) }
{
    match cloud.has(name, bytes) {
        Ok(is) => Ok(Some(is)),
        Err(CloudFault::Failed) => Ok(None),
        Err(CloudFault::Memory) => Err(WorldFault::Memory),
    }
}

/// How many versions of an object landed; none where the look failed.
fn versions_of<C: Bench>(cloud: &mut C, name: ObjName) -> Result<Option<u64>, WorldFault>
    ensures looked { Looked (C.seen cloud.old) (C.seen cloud.new) }
    ensures dark { result ≡ Ok None
        → Rose (C.seen cloud.old).counts.dark (C.seen cloud.new).counts.dark }
    ensures count { (s : CloudState) → (C.seen cloud.old).state ≡ Some s
        → IfOk result (Counts s name) }
{
    match cloud.versions(name) {
        Ok(count) => Ok(Some(count)),
        Err(CloudFault::Failed) => Ok(None),
        Err(CloudFault::Memory) => Err(WorldFault::Memory),
    }
}

/// Looks at an object before these bytes are put.
fn look_at<C: Bench>(cloud: &mut C, name: &ObjName, bytes: &[u8]) -> Result<Sight, WorldFault>
    ensures looked { Looked (C.seen cloud.old) (C.seen cloud.new) }
    ensures dark { IfOk result (λ sight. sight.newest ≡ None
        → Rose (C.seen cloud.old).counts.dark (C.seen cloud.new).counts.dark) }
    ensures sees { (s : CloudState) → (C.seen cloud.old).state ≡ Some s
        → IfOk result (SeesBefore s (put_by name.now bytes.now)) }
{
    let newest = match is_newest(cloud, *name, bytes) {
        Ok(Some(newest)) => newest,
        Ok(None) => return Ok(dark()),
        Err(fault) => return Err(fault),
    };
    match versions_of(cloud, *name) {
        Ok(Some(versions)) => Ok(Sight {
            newest: Some(newest),
            versions,
        }),
        Ok(None) => Ok(dark()),
        Err(fault) => Err(fault),
    }
}

/// Looks at the object of the put that the session has in hand.
pub(crate) fn look_before<S: SessionCalls, C: Bench>(
    cloud: &mut C,
    session: &S,
) -> Result<Sight, WorldFault>
    requires { IsSome (put_of (S.acting session.now).work) }
    ensures looked { Looked (C.seen cloud.old) (C.seen cloud.new) }
    ensures dark { IfOk result (λ sight. sight.newest ≡ None
        → Rose (C.seen cloud.old).counts.dark (C.seen cloud.new).counts.dark) }
    ensures sees { (s : CloudState) → (C.seen cloud.old).state ≡ Some s → (put : Put)
        → put_of (S.acting session.now).work ≡ Some put → IfOk result (SeesBefore s put) }
{
    match session.in_hand() {
        Some(Call::PutHeld(name, bytes, _, _)) => look_at(cloud, &name, bytes),
        _ => unreachable!(),
    }
}

/// Looks at the object behind the put: whether the newest version has its bytes, by whether another one landed. None where a look failed.
pub(crate) fn look_behind<C: Bench>(
    cloud: &mut C,
    name: ObjName,
    before: &Sight,
) -> Result<Option<bool>, WorldFault>
    ensures looked { Looked (C.seen cloud.old) (C.seen cloud.new) }
    ensures dark { result ≡ Ok None → before.now.newest ≢ None
        → Rose (C.seen cloud.old).counts.dark (C.seen cloud.new).counts.dark }
    ensures sees { (s : CloudState) → (C.seen cloud.old).state ≡ Some s
        → IfOk result (SeesBehind s name before.now) }
{
    let Some(was) = before.newest else {
        return Ok(None);
    };
    match versions_of(cloud, name)? {
        Some(versions) => Ok(Some(was || before.versions < versions)),
        None => Ok(None),
    }
}
