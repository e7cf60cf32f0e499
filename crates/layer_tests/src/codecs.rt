//! Examples of the packets of Engine.IO and Socket.IO, over the public calls of `aud_eio` and `aud_sio`; and of the
//! texts, lists, places and threads of `aud_base`.

mod attachments;
mod engine_packets;
mod shared;
mod socket_packets;
