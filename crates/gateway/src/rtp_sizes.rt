// How many bytes each record has: by these a host can tell that its own declarations are those that the calls were compiled with.
ghost use Rattle.std.specs.Prelude.{◌≡◌};
ghost use Rattle.gateway.specs.Sizes.{sizes};

#[repr(C)]
#[derive(Clone, Copy)]
pub struct RtpSizes {
    pub refused: usize,
    pub test: usize,
    pub extensions: usize,
    pub header: usize,
    pub fixed: usize,
    pub front: usize,
    pub bytes: usize,
    pub header_front: usize,
    pub header_read: usize,
    pub length: usize,
    pub header_changed: usize,
    pub element: usize,
    pub ids: usize,
    pub packet_front: usize,
    pub packet_read: usize,
    pub parameter_set: usize,
    pub h264_payloader: usize,
    pub h264_sent: usize,
    pub h264_lent_payloader: usize,
    pub h264_lent_sent: usize,
    pub h264_packet: usize,
    pub body: usize,
    pub h264_read: usize,
    pub vp8_payloader: usize,
    pub vp8_sent: usize,
    pub vp8_packet: usize,
    pub vp8_read: usize,
    pub joiner: usize,
    pub joined: usize,
    pub closed: usize,
}

#[unsafe(no_mangle)]
pub extern "C" fn rtp_sizes() -> RtpSizes
    ensures { result ≡ sizes }
{
    RtpSizes {
        refused: 24,
        test: 32,
        extensions: 1128,
        header: 1224,
        fixed: 16,
        front: 48,
        bytes: 16,
        header_front: 64,
        header_read: 1256,
        length: 32,
        header_changed: 1248,
        element: 48,
        ids: 64,
        packet_front: 72,
        packet_read: 1264,
        parameter_set: 1032,
        h264_payloader: 2064,
        h264_sent: 2120,
        h264_lent_payloader: 16,
        h264_lent_sent: 72,
        h264_packet: 16,
        body: 24,
        h264_read: 72,
        vp8_payloader: 4,
        vp8_sent: 48,
        vp8_packet: 14,
        vp8_read: 48,
        joiner: 32,
        joined: 40,
        closed: 64,
    }
}
