// Packing the plan in hand over the skyline in hand.
use crate::answers::{Answer, Denial};
use packer::{Spot, pack};
use plan::Plan;
use rules::placements::Placement;
use skyline::skylines::Skyline;
use std::io;

// Packs with so many walk records and placement records, and prints the answer and a line for each block.
pub fn pack_lines<S: Skyline>(
    rt: &HostRuntime,
    skyline: &mut S,
    plan: &Plan,
    walk: u32,
    places: u32,
) -> io::Result<()> {
    let mut walk = vec![in rt.alloc(); Spot::default(); walk as usize]?;
    let mut places = vec![in rt.alloc(); Placement::default(); places as usize]?;
    let extent = match pack(plan, skyline, &mut walk, &mut places) {
        Ok(extent) => extent,
        Err(refusal) => return rt.println(Denial::from(refusal)),
    };
    rt.println(Answer::Packed(extent))?;
    for (i, place) in places.iter().enumerate().take(plan.blocks().len()) {
        rt.println(Answer::At(i, *place))?;
    }
    Ok(())
}
