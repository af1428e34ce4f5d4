// A net is run.
ghost use Rattle.std.specs.Prelude.{◌≡◌, length, IfOk};
ghost use Rattle.core_array.specs.ArrayState.{network_of};
ghost use Rattle.core_array.specs.Cores.{cores_after};
ghost use Rattle.net_file.specs.Net.{IsSound};
ghost use Rattle.net_file.specs.Schedule.{schedule_of};

use crate::nets::Net;
use crate::schedules::schedule;
use core_array::{Array, ArrayError};
use j1_table::Image;
use std::alloc::{AllocError, Global};

/// The array of a net whose cores have these images, after the schedule of the net. An error is want of memory.
pub fn run_net(alloc: Global, net: &Net, images: &[Image]) -> Result<Array, AllocError>
    requires sound { IsSound net.now }
    requires images { length images.now ≡ length net.now.cores }
    ensures ran { IfOk result (λ array. network_of array ≡ cores_after images.now net.now.links (schedule_of net.now)) }
    ensures count { IfOk result (λ array. length array.cores ≡ length net.now.cores) }
{
    let schedule = schedule(alloc, net)?;
    match Array::new(alloc, images, net.links()) {
        Ok(array) => {
            let mut array = array;
            array.run(schedule.as_slice())?;
            Ok(array)
        }
        Err(ArrayError::BadLink(_)) => unreachable!(),
        Err(ArrayError::OutOfMemory) => Err(AllocError),
    }
}
