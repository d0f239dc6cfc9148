//! The laws of linking (JVMS 5.4).

ghost use Rattle.link_laws.specs.Laws.{WhatLinksIsLinked, FirstFaultIsTold};
ghost use Rattle.link_laws.specs.Laws.{BehindIsSound, BehindKeeps};

/// What links is a linked world: no class is above itself, every supertype is there, no name stands
/// twice, every entry that a class uses names what its use wants, and main is there.
pub fn what_links_is_linked()
    ensures { WhatLinksIsLinked }
{}

/// What is refused is refused with the first test that fails, at the first class at which it does.
pub fn first_fault_is_told()
    ensures { FirstFaultIsTold }
{}

/// One class more that links behind a sound world leaves it sound.
pub fn behind_is_sound()
    ensures { BehindIsSound }
{}

/// One class more changes nothing for the classes that were there.
pub fn behind_keeps()
    ensures { BehindKeeps }
{}
