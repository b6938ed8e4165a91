// What the stacks and banks are built of.
use bank::chain::Link;
use bank::empty::NoMembers;
use faulty::FaultLayer;
use member::Member;
use remap::Remap;

// A member alone in a bank.
pub(crate) type Single<M> = Link<M, NoMembers>;

// A remap layer over a fault layer.
pub(crate) type Stack<M> = Remap<FaultLayer<M>>;

// A bank of one member.
pub(crate) fn single<M: Member>(member: M) -> Single<M> {
    Link::new(member, NoMembers)
}

// A remap layer with 2 spares over a fault layer.
pub(crate) fn stack<M: Member>(layer: FaultLayer<M>) -> Stack<M> {
    Remap::new(layer, 2)
}
