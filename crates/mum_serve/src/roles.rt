//! What a crew runs for a server.

ghost use Rattle.std.specs.Prelude.{◌≡◌, ◌<◌, ◌≤◌, ℕ, ◌+◌, ◌++◌, None, length};
ghost use Rattle.std.specs.Vec.{vec_capacity};
ghost use Rattle.mum_serve.specs.Opened.{HasRoom};
ghost use Rattle.mum_serve.specs.Roles.{AreOthers, AreRoles, later_of, others_of, roles_of, stores_of};

use mum_crew::{Gate, Role, Turn};
use mum_io::Clock;
use mum_keeper::{Keeper, KeeperOpening, Keeping, Store};
use mum_owner::{Entrance, Owner, OwnerOpening, Serving};
use mum_viewer::{Viewer, ViewerOpening, Viewing};
use mum_worker::{Worker, WorkerOpening};
use std::mem::drop;
use std::sync::Wait;

/// One of the roles of a server: the first is the owner of the connections, then come its workers, and after them the
/// viewer and the store, where there are any.
#[derive(Drop)]
pub enum Roles<
    'a,
    D: Entrance,
    K: Clock,
    P: Keeper,
    G: Gate,
    N: Serving + Viewing + Keeping,
    R: Wait + Copy,
> {
    Owner(Owner<'a, D, K, N, R>),
    Worker(Worker<D::Peer, G, N, R>),
    Viewer(Viewer<D, N, R>),
    Store(Store<P, N, R>),
}

/// With what a role was opened. Contracts alone see it.
pub enum RoleOpening {
    Owner(OwnerOpening),
    Worker(WorkerOpening),
    Viewer(ViewerOpening),
    Store(KeeperOpening),
}

impl<
    'a,
    D: Entrance,
    K: Clock,
    P: Keeper,
    G: Gate,
    N: Serving + Viewing + Keeping,
    R: Wait + Copy,
> Role for Roles<'a, D, K, P, G, N, R> {
    ghost use Rattle.mum_serve.specs.Roles.{RoleTurned, has_ended, opening_of};

    type Opening = RoleOpening;

    ghost opening = { opening_of N.opening.state N.door N.view N.keeper };

    ghost has_ended = { has_ended };

    ghost turned = { RoleTurned D.Peer.facts
        D.facts P.facts N.opening };

    fn turn(&mut self) -> Turn {
        match self {
            Roles::Owner(owner) => Role::turn(owner),
            Roles::Worker(worker) => Role::turn(worker),
            Roles::Viewer(viewer) => Role::turn(viewer),
            Roles::Store(store) => Role::turn(store),
        }
    }
}

// The roles of a server, apart.
#[derive(Drop)]
pub(crate) struct Parted<
    'a,
    D: Entrance,
    K: Clock,
    P: Keeper,
    G: Gate,
    N: Serving + Viewing + Keeping,
    R: Wait + Copy,
> {
    pub(crate) owner: Owner<'a, D, K, N, R>,
    pub(crate) workers: Vec<Worker<D::Peer, G, N, R>>,
    pub(crate) viewer: Option<Viewer<D, N, R>>,
    pub(crate) store: Option<Store<P, N, R>>,
}

// Puts the viewer, where there is one, after these roles. There is room for it.
fn push_viewer<
    'a,
    D: Entrance,
    K: Clock,
    P: Keeper,
    G: Gate,
    N: Serving + Viewing + Keeping,
    R: Wait + Copy,
>(list: &mut Vec<Roles<'a, D, K, P, G, N, R>>, viewer: Option<Viewer<D, N, R>>)
    requires { length list.old.items < vec_capacity list.old }
    ensures items { list.new.items ≡ list.old.items ++ later_of viewer None }
    ensures capacity { vec_capacity list.new ≡ vec_capacity list.old }
{
    if let Some(viewer) = viewer {
        list.push_reserved(Roles::Viewer(viewer));
    }
}

// Puts the store, where there is one, after these roles. There is room for it.
fn push_store<
    'a,
    D: Entrance,
    K: Clock,
    P: Keeper,
    G: Gate,
    N: Serving + Viewing + Keeping,
    R: Wait + Copy,
>(list: &mut Vec<Roles<'a, D, K, P, G, N, R>>, store: Option<Store<P, N, R>>)
    requires { length list.old.items < vec_capacity list.old }
    ensures { list.new.items ≡ list.old.items ++ stores_of store }
{
    if let Some(store) = store {
        list.push_reserved(Roles::Store(store));
    }
}

// All roles of a server as one list, in their order. There is room for them.
pub(crate) fn together<
    'a,
    D: Entrance,
    K: Clock,
    P: Keeper,
    G: Gate,
    N: Serving + Viewing + Keeping,
    R: Wait + Copy,
>(
    roles: Parted<'a, D, K, P, G, N, R>,
    room: Vec<Roles<'a, D, K, P, G, N, R>>,
) -> Vec<Roles<'a, D, K, P, G, N, R>>
    requires room { HasRoom (length roles.workers.items + 3) room }
    ensures { result.items ≡ roles_of roles.entry.owner roles.entry.workers.items roles.entry.viewer
        roles.entry.store }
{
    let Parted {
        owner,
        workers,
        viewer,
        store,
    } = roles;
    let mut list = room;
    list.push_reserved(Roles::Owner(owner));
    for worker in workers {
        list.push_reserved(Roles::Worker(worker));
    }
    push_viewer(&mut list, viewer);
    push_store(&mut list, store);
    list
}

// Takes these roles apart, which are workers, a viewer and a store. There is room for the workers.
fn take_apart<
    'a,
    D: Entrance,
    K: Clock,
    P: Keeper,
    G: Gate,
    N: Serving + Viewing + Keeping,
    R: Wait + Copy,
>(
    roles: Vec<Roles<'a, D, K, P, G, N, R>>,
    workers: &mut Vec<Worker<D::Peer, G, N, R>>,
    viewer: &mut Option<Viewer<D, N, R>>,
    store: &mut Option<Store<P, N, R>>,
)
    requires roles { AreOthers roles.items }
    requires room { HasRoom (length roles.items) workers.old }
    requires no_viewer { viewer.old ≡ None }
    requires no_store { store.old ≡ None }
    ensures { roles.entry.items ≡ others_of workers.new.items viewer.new store.new }
{
    for role in roles {
        match role {
            Roles::Worker(worker) => workers.push_reserved(worker),
            Roles::Viewer(one) => drop(viewer.replace(one)),
            Roles::Store(one) => drop(store.replace(one)),
            Roles::Owner(_) => unreachable!(),
        }
    }
}

// The roles of such a list, apart. There is room for the workers.
pub(crate) fn apart<
    'a,
    D: Entrance,
    K: Clock,
    P: Keeper,
    G: Gate,
    N: Serving + Viewing + Keeping,
    R: Wait + Copy,
>(
    roles: Vec<Roles<'a, D, K, P, G, N, R>>,
    room: Vec<Worker<D::Peer, G, N, R>>,
) -> Parted<'a, D, K, P, G, N, R>
    requires roles { AreRoles roles.items }
    requires room { (count : ℕ) × (length roles.items ≤ count + 1) × HasRoom count room }
    ensures { roles.entry.items ≡ roles_of result.owner result.workers.items result.viewer result.store }
{
    let mut roles = roles;
    let Roles::Owner(owner) = roles.remove(0) else {
        unreachable!()
    };
    let mut workers = room;
    let mut viewer = None;
    let mut store = None;
    take_apart(roles, &mut workers, &mut viewer, &mut store);
    Parted {
        owner,
        workers,
        viewer,
        store,
    }
}
