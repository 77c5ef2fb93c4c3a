//! The kept states of tuples of three to eight. Written by trials/widths: not to be edited by hand.
ghost use Rattle.std.specs.Prelude.{◌≡◌};

use super::{PartialState2, SequencePlace, TupleState};

/// The kept state of a tuple of three: the variant is that of the running part.
#[derive(Drop)]
pub enum PartialState3<A, B, C> {
    A(A),
    B(B),
    C(C),
}

/// The kept state of a tuple of four: the variant is that of the running part.
#[derive(Drop)]
pub enum PartialState4<A, B, C, D> {
    A(A),
    B(B),
    C(C),
    D(D),
}

/// The kept state of a tuple of five: the variant is that of the running part.
#[derive(Drop)]
pub enum PartialState5<A, B, C, D, E> {
    A(A),
    B(B),
    C(C),
    D(D),
    E(E),
}

/// The kept state of a tuple of six: the variant is that of the running part.
#[derive(Drop)]
pub enum PartialState6<A, B, C, D, E, F> {
    A(A),
    B(B),
    C(C),
    D(D),
    E(E),
    F(F),
}

/// The kept state of a tuple of seven: the variant is that of the running part.
#[derive(Drop)]
pub enum PartialState7<A, B, C, D, E, F, G> {
    A(A),
    B(B),
    C(C),
    D(D),
    E(E),
    F(F),
    G(G),
}

/// The kept state of a tuple of eight: the variant is that of the running part.
#[derive(Drop)]
pub enum PartialState8<A, B, C, D, E, F, G, H> {
    A(A),
    B(B),
    C(C),
    D(D),
    E(E),
    F(F),
    G(G),
    H(H),
}

impl<A: Default, B, C> Default for PartialState3<A, B, C> {
    ghost use Rattle.combine_base.specs.Sequence.Places.{begins_3};

    ghost is_default = { begins_3 A.is_default };

    #[inline]
    fn default() -> Self {
        PartialState3::A(A::default())
    }
}

impl<A: Default, B, C, D> Default for PartialState4<A, B, C, D> {
    ghost use Rattle.combine_base.specs.Sequence.Places.{begins_4};

    ghost is_default = { begins_4 A.is_default };

    #[inline]
    fn default() -> Self {
        PartialState4::A(A::default())
    }
}

impl<A: Default, B, C, D, E> Default for PartialState5<A, B, C, D, E> {
    ghost use Rattle.combine_base.specs.Sequence.Longer.{begins_5};

    ghost is_default = { begins_5 A.is_default };

    #[inline]
    fn default() -> Self {
        PartialState5::A(A::default())
    }
}

impl<A: Default, B, C, D, E, F> Default for PartialState6<A, B, C, D, E, F> {
    ghost use Rattle.combine_base.specs.Sequence.Longer.{begins_6};

    ghost is_default = { begins_6 A.is_default };

    #[inline]
    fn default() -> Self {
        PartialState6::A(A::default())
    }
}

impl<A: Default, B, C, D, E, F, G> Default for PartialState7<A, B, C, D, E, F, G> {
    ghost use Rattle.combine_base.specs.Sequence.Longer.{begins_7};

    ghost is_default = { begins_7 A.is_default };

    #[inline]
    fn default() -> Self {
        PartialState7::A(A::default())
    }
}

impl<A: Default, B, C, D, E, F, G, H> Default for PartialState8<A, B, C, D, E, F, G, H> {
    ghost use Rattle.combine_base.specs.Sequence.Longer.{begins_8};

    ghost is_default = { begins_8 A.is_default };

    #[inline]
    fn default() -> Self {
        PartialState8::A(A::default())
    }
}

impl<A, B, C> TupleState for PartialState3<A, B, C> {
    ghost use Rattle.combine_base.specs.Sequence.Places.{place_3};

    type Before = PartialState2<A, B>;

    type Last = C;

    ghost place = { place_3 };

    #[inline(always)]
    fn into_place(self) -> SequencePlace<Self::Before, Self::Last> {
        match self {
            PartialState3::A(at) => SequencePlace::Before(PartialState2::A(at)),
            PartialState3::B(at) => SequencePlace::Before(PartialState2::B(at)),
            PartialState3::C(at) => SequencePlace::Last(at),
        }
    }

    #[inline(always)]
    fn from_place(at: SequencePlace<Self::Before, Self::Last>) -> Self
        ensures { place_3 result ≡ at }
    {
        match at {
            SequencePlace::Before(PartialState2::A(at)) => PartialState3::A(at),
            SequencePlace::Before(PartialState2::B(at)) => PartialState3::B(at),
            SequencePlace::Last(at) => PartialState3::C(at),
        }
    }
}

impl<A, B, C, D> TupleState for PartialState4<A, B, C, D> {
    ghost use Rattle.combine_base.specs.Sequence.Places.{place_4};

    type Before = PartialState3<A, B, C>;

    type Last = D;

    ghost place = { place_4 };

    #[inline(always)]
    fn into_place(self) -> SequencePlace<Self::Before, Self::Last> {
        match self {
            PartialState4::A(at) => SequencePlace::Before(PartialState3::A(at)),
            PartialState4::B(at) => SequencePlace::Before(PartialState3::B(at)),
            PartialState4::C(at) => SequencePlace::Before(PartialState3::C(at)),
            PartialState4::D(at) => SequencePlace::Last(at),
        }
    }

    #[inline(always)]
    fn from_place(at: SequencePlace<Self::Before, Self::Last>) -> Self
        ensures { place_4 result ≡ at }
    {
        match at {
            SequencePlace::Before(PartialState3::A(at)) => PartialState4::A(at),
            SequencePlace::Before(PartialState3::B(at)) => PartialState4::B(at),
            SequencePlace::Before(PartialState3::C(at)) => PartialState4::C(at),
            SequencePlace::Last(at) => PartialState4::D(at),
        }
    }
}

impl<A, B, C, D, E> TupleState for PartialState5<A, B, C, D, E> {
    ghost use Rattle.combine_base.specs.Sequence.Longer.{place_5};

    type Before = PartialState4<A, B, C, D>;

    type Last = E;

    ghost place = { place_5 };

    #[inline(always)]
    fn into_place(self) -> SequencePlace<Self::Before, Self::Last> {
        match self {
            PartialState5::A(at) => SequencePlace::Before(PartialState4::A(at)),
            PartialState5::B(at) => SequencePlace::Before(PartialState4::B(at)),
            PartialState5::C(at) => SequencePlace::Before(PartialState4::C(at)),
            PartialState5::D(at) => SequencePlace::Before(PartialState4::D(at)),
            PartialState5::E(at) => SequencePlace::Last(at),
        }
    }

    #[inline(always)]
    fn from_place(at: SequencePlace<Self::Before, Self::Last>) -> Self
        ensures { place_5 result ≡ at }
    {
        match at {
            SequencePlace::Before(PartialState4::A(at)) => PartialState5::A(at),
            SequencePlace::Before(PartialState4::B(at)) => PartialState5::B(at),
            SequencePlace::Before(PartialState4::C(at)) => PartialState5::C(at),
            SequencePlace::Before(PartialState4::D(at)) => PartialState5::D(at),
            SequencePlace::Last(at) => PartialState5::E(at),
        }
    }
}

impl<A, B, C, D, E, F> TupleState for PartialState6<A, B, C, D, E, F> {
    ghost use Rattle.combine_base.specs.Sequence.Longer.{place_6};

    type Before = PartialState5<A, B, C, D, E>;

    type Last = F;

    ghost place = { place_6 };

    #[inline(always)]
    fn into_place(self) -> SequencePlace<Self::Before, Self::Last> {
        match self {
            PartialState6::A(at) => SequencePlace::Before(PartialState5::A(at)),
            PartialState6::B(at) => SequencePlace::Before(PartialState5::B(at)),
            PartialState6::C(at) => SequencePlace::Before(PartialState5::C(at)),
            PartialState6::D(at) => SequencePlace::Before(PartialState5::D(at)),
            PartialState6::E(at) => SequencePlace::Before(PartialState5::E(at)),
            PartialState6::F(at) => SequencePlace::Last(at),
        }
    }

    #[inline(always)]
    fn from_place(at: SequencePlace<Self::Before, Self::Last>) -> Self
        ensures { place_6 result ≡ at }
    {
        match at {
            SequencePlace::Before(PartialState5::A(at)) => PartialState6::A(at),
            SequencePlace::Before(PartialState5::B(at)) => PartialState6::B(at),
            SequencePlace::Before(PartialState5::C(at)) => PartialState6::C(at),
            SequencePlace::Before(PartialState5::D(at)) => PartialState6::D(at),
            SequencePlace::Before(PartialState5::E(at)) => PartialState6::E(at),
            SequencePlace::Last(at) => PartialState6::F(at),
        }
    }
}

impl<A, B, C, D, E, F, G> TupleState for PartialState7<A, B, C, D, E, F, G> {
    ghost use Rattle.combine_base.specs.Sequence.Longer.{place_7};

    type Before = PartialState6<A, B, C, D, E, F>;

    type Last = G;

    ghost place = { place_7 };

    #[inline(always)]
    fn into_place(self) -> SequencePlace<Self::Before, Self::Last> {
        match self {
            PartialState7::A(at) => SequencePlace::Before(PartialState6::A(at)),
            PartialState7::B(at) => SequencePlace::Before(PartialState6::B(at)),
            PartialState7::C(at) => SequencePlace::Before(PartialState6::C(at)),
            PartialState7::D(at) => SequencePlace::Before(PartialState6::D(at)),
            PartialState7::E(at) => SequencePlace::Before(PartialState6::E(at)),
            PartialState7::F(at) => SequencePlace::Before(PartialState6::F(at)),
            PartialState7::G(at) => SequencePlace::Last(at),
        }
    }

    #[inline(always)]
    fn from_place(at: SequencePlace<Self::Before, Self::Last>) -> Self
        ensures { place_7 result ≡ at }
    {
        match at {
            SequencePlace::Before(PartialState6::A(at)) => PartialState7::A(at),
            SequencePlace::Before(PartialState6::B(at)) => PartialState7::B(at),
            SequencePlace::Before(PartialState6::C(at)) => PartialState7::C(at),
            SequencePlace::Before(PartialState6::D(at)) => PartialState7::D(at),
            SequencePlace::Before(PartialState6::E(at)) => PartialState7::E(at),
            SequencePlace::Before(PartialState6::F(at)) => PartialState7::F(at),
            SequencePlace::Last(at) => PartialState7::G(at),
        }
    }
}

impl<A, B, C, D, E, F, G, H> TupleState for PartialState8<A, B, C, D, E, F, G, H> {
    ghost use Rattle.combine_base.specs.Sequence.Longer.{place_8};

    type Before = PartialState7<A, B, C, D, E, F, G>;

    type Last = H;

    ghost place = { place_8 };

    #[inline(always)]
    fn into_place(self) -> SequencePlace<Self::Before, Self::Last> {
        match self {
            PartialState8::A(at) => SequencePlace::Before(PartialState7::A(at)),
            PartialState8::B(at) => SequencePlace::Before(PartialState7::B(at)),
            PartialState8::C(at) => SequencePlace::Before(PartialState7::C(at)),
            PartialState8::D(at) => SequencePlace::Before(PartialState7::D(at)),
            PartialState8::E(at) => SequencePlace::Before(PartialState7::E(at)),
            PartialState8::F(at) => SequencePlace::Before(PartialState7::F(at)),
            PartialState8::G(at) => SequencePlace::Before(PartialState7::G(at)),
            PartialState8::H(at) => SequencePlace::Last(at),
        }
    }

    #[inline(always)]
    fn from_place(at: SequencePlace<Self::Before, Self::Last>) -> Self
        ensures { place_8 result ≡ at }
    {
        match at {
            SequencePlace::Before(PartialState7::A(at)) => PartialState8::A(at),
            SequencePlace::Before(PartialState7::B(at)) => PartialState8::B(at),
            SequencePlace::Before(PartialState7::C(at)) => PartialState8::C(at),
            SequencePlace::Before(PartialState7::D(at)) => PartialState8::D(at),
            SequencePlace::Before(PartialState7::E(at)) => PartialState8::E(at),
            SequencePlace::Before(PartialState7::F(at)) => PartialState8::F(at),
            SequencePlace::Before(PartialState7::G(at)) => PartialState8::G(at),
            SequencePlace::Last(at) => PartialState8::H(at),
        }
    }
}
