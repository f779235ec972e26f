//! A server with its nodes, before anything has come.

ghost use Rattle.std.specs.Prelude.{◌≡◌, IfOk};

use crate::bell::Bell;
use crate::course::Course;
use crate::doors::Doors;
use crate::ending::End;
use crate::gauge::Gauge;
use crate::house::{Counters, House};
use crate::pace::Pace;
use crate::rounds::Rounds;
use crate::settings::Settings;
use crate::site::Site;
use crate::station::Station;
use connection_parts::Timepiece;
use crossbeam_channel::unbounded;
use mc_types::NodeNo;
use node_core::Life;
use serve_sessions::{Entrance, Log, Signal, milliseconds, now};
use std::alloc::{AllocError, Global};
use std::collections::VecDeque;
use std::rt::Clock;
use std::sync::Mutex;
use std::sync::atomic::AtomicU64;
use std::time::Instant;

/// The server with these doors and settings. An `Err` is want of memory.
pub fn house_of<R: Clock>(
    rt: &R,
    alloc: Global,
    doors: Doors,
    settings: Settings,
) -> Result<House, AllocError>
    ensures config { IfOk result (λ house. house.config ≡ settings.config) }
    ensures limits { IfOk result (λ house. house.own ≡ settings.own) }
{
    let Doors {
        entrances,
        lives,
        status,
    } = doors;
    let Settings {
        config,
        own,
        is_quiet,
        stop,
    } = settings;
    Ok(House {
        alloc,
        config,
        own,
        stations: stations_of(rt, alloc, entrances, lives)?,
        log: Log::make(alloc, is_quiet),
        end: End::none(),
        stop,
        counters: Counters::none(),
        status_door: status,
        pace: Pace::of(own),
        begun: Instant::now(rt).ok(),
        timepiece: Mutex::new(Timepiece::make(0, milliseconds(rt))),
    })
}

/// The stations of the nodes that listen here and have these lives, that of node 1 first.
fn stations_of<R: Clock>(
    rt: &R,
    alloc: Global,
    entrances: Vec<Entrance>,
    lives: Vec<Life>,
) -> Result<Vec<Station>, AllocError> {
    let mut stations = Vec::with_capacity(alloc, entrances.len())?;
    let mut entrances = VecDeque::from_vec(entrances);
    let mut lives = VecDeque::from_vec(lives);
    while let Some(entrance) = entrances.pop_front() {
        let Ok(node) = NodeNo::make(number_of(stations.len())) else {
            drop(entrance);
            break;
        };
        let (wakes, woken) = unbounded(alloc)?;
        stations.push(Station {
            node,
            entrance,
            site: Mutex::new(Site::none(alloc, now(rt))),
            wakes,
            woken,
            next: AtomicU64::new(1),
            course: Mutex::new(Course::first()),
            rounds: Rounds::none(),
            bell: Bell::silent(),
            news: Signal::silent(),
            life: Mutex::new(lives.pop_front()),
            gauge: Gauge::none(node),
        })?;
    }
    Ok(stations)
}

/// The number of the node at a place.
fn number_of(place: usize) -> u8 {
    place.saturating_add(1).min(u8::MAX as usize) as u8
}
